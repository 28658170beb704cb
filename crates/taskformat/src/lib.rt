// The task file as it is defined, and its theorems (specs/, proofs/): no code. One record stands in `records`, reading a
// file in `taskfile`, writing one in `taskwriter`.

#![tactic(auto)]
