// The numbered words of the PDDL texts (docs/PDDL.md), byte by byte: what the readers compare with and the writers put.

#![tactic(auto)]

mod word;

ghost use Rattle.std.specs.Prelude.{◌++◌, ◌≡◌, ◌+◌, ◌%◌, ◌≤◌, length};
ghost use Rattle.room.specs.Placing.{last_place, Placed};
ghost use Rattle.text.specs.Text.{digit_zero};
ghost use Rattle.pddl.specs.Texts.{name, action_head};
ghost use Rattle.pddlwords.specs.Spelling.{word_room, Spells, line_of};

use room::{put, put_word};
use word::ROOM;
pub use word::Word;

// The byte of a number's last digit.
fn digit(n: usize) -> u8
    ensures { result ≡ digit_zero + n % 10 }
{
    b'0' + ((n % 10) as u8)
}

// The number of a fact or an action: one digit below 10, and from there on the last two.
fn put_name(room: &mut [u8], at: usize, n: usize) -> usize
    requires { at + 2 ≤ last_place }
    ensures { Placed room.old room.new at result (name n) }
{
    if n < 10 {
        return put(room, at, digit(n));
    }
    let next = put(room, at, digit(n / 10));
    put(room, next, digit(n))
}

fn named(lead: &[u8], n: usize, tail: &[u8]) -> Word
    requires { length lead.now + 2 + length tail.now ≤ word_room }
    ensures { Spells result (lead.now ++ name n ++ tail.now) }
{
    let mut bytes = [0u8; ROOM];
    let next = put_word(&mut bytes, 0, lead);
    let next = put_name(&mut bytes, next, n);
    let next = put_word(&mut bytes, next, tail);
    Word { bytes, len: next }
}

// Which line of a fact stands in a set: its fact line, or its delete line.
#[derive(Clone, Copy, PartialEq, Eq, Debug)]
pub enum Line {
    Fact,
    Deleted,
}

impl Line {
    // Any number has a word: that of its last two digits.
    pub fn of(self, fact: usize) -> Word
        ensures { Spells result (line_of self fact) }
    {
        match self {
            Line::Fact => named(b"    (f", fact, b")\n"),
            Line::Deleted => named(b"    (not (f", fact, b"))\n"),
        }
    }
}

pub fn action_head(action: usize) -> Word
    ensures { Spells result (action_head action) }
{
    named(
        b"  (:action a",
        action,
        b"\n   :parameters ()\n   :precondition (and\n",
    )
}
