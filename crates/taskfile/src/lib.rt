// Reading the task file (document 01, "The task file"; 02, requests 1 and 6): one pass over the records, with what they have said so far.

#![tactic(auto)]

mod store;

ghost use Rattle.std.specs.Prelude.{◌≡◌};
ghost use Rattle.taskformat.specs.Lengths.{program_room};
ghost use Rattle.table.specs.Outcomes.{read_of};
ghost use Rattle.taskformat.specs.Reading.{ReadsFile};

use records::fault::check;
use records::kinds::Kind;
use records::seen::Seen;
use store::keep;
use table::Task;
use table::refusals::{Refusal, Why};

// How much of a file the program reads: longer than any file is, so that later bytes can't alter its answer (document 01,
// "The listing"; 02, request 6).
pub const MOST_INPUT: usize = 28_000;

// The code's number is the definitions'.
pub fn longest_input() -> usize
    ensures { result ≡ program_room }
{
    MOST_INPUT
}

pub fn read(s: &[u8]) -> Result<Task, Refusal>
    ensures { ReadsFile s.now (read_of result) }
{
    let mut seen = Seen::nothing();
    let mut at = 0;
    loop {
        let parts = check(s, at, &seen)?;
        let next = at + 1 + parts.kind.body_length();
        if parts.kind == Kind::End {
            if next < s.len() {
                return Err(Why::BytesAfterEnd.at(next));
            }
            return Ok(seen.task);
        }
        keep(&mut seen, parts);
        at = next;
    }
}
