// Lent room. Past the room a byte is only counted, so that the same functions measure a text and write it.

#![tactic(auto)]

ghost use Rattle.std.specs.Prelude.{[], List, ◌∷◌, ◌+◌, ◌<◌, ◌≡◌, ◌≤◌, length, ℕ};
ghost use Rattle.table.specs.Outcomes.{Outcome, given, reply_of};
ghost use Rattle.room.specs.Giving.{Writes};
ghost use Rattle.room.specs.Placing.{last_place, Placed};

use table::refusals::{Refusal, Why};

pub fn put(room: &mut [u8], at: usize, byte: u8) -> usize
    requires { at < last_place }
    ensures { Placed room.old room.new at result (byte ∷ []) }
{
    if at < room.len() {
        room[at] = byte;
        return at + 1;
    }
    at + 1
}

pub fn put_word(room: &mut [u8], at: usize, word: &[u8]) -> usize
    requires { at + length word.now ≤ last_place }
    ensures { Placed room.old room.new at result word.now }
{
    let mut next = at;
    for &byte in word {
        next = put(room, next, byte);
    }
    next
}

// The text that `write` places, from the room's first place on and nothing beside; or 11, and nothing written. Written where there is next
// to no room, it is only counted.
pub fn give<F: Fn(&mut [u8]) -> usize>(write: F, room: &mut [u8]) -> Result<usize, Refusal>
    requires { F.IsAlwaysCallable write }
    ensures { (text : List ℕ) → Writes F.Fn write text → ◌≡◌ {A = Outcome} (record { reply = reply_of result; room = room.new }) (given text room.old) }
{
    let mut scrap = [0u8; 1];
    if room.len() < write(&mut scrap) {
        return Err(Why::RoomTooShort.at(0));
    }
    let end = write(room);
    Ok(end)
}
