// What a fixed layout of bytes is, and where a text leaves it (specs/, proofs/): no code.

#![tactic(auto)]
