// What the records so far have said (document 01, "The task file"; 02, requests 1 and 6).
ghost use Rattle.std.specs.Prelude.{◌≡◌, eqb};
ghost use Rattle.taskformat.specs.Reading.{nothing_seen, last_run};
ghost use Rattle.taskformat.specs.Format.{position_of};
ghost use Rattle.records.specs.Kinds.{kind_number, last_kind};
ghost use Rattle.records.specs.Records.{seen_of};

use crate::kinds::Kind;
use table::{Runs, Task};

// The task, and the last record's kind and body; no kind before the first.
#[derive(Clone, Copy)]
pub struct Seen {
    pub task: Task,
    pub kind: Option<Kind>,
    pub body: usize,
}

// The run that was opened last; 0 before the first.
pub fn last_run(runs: &Runs) -> usize
    ensures { result ≡ last_run runs.now }
{
    runs.many.saturating_sub(1)
}

impl Seen {
    pub fn nothing() -> Seen
        ensures { seen_of result ≡ nothing_seen }
    {
        Seen {
            task: table::no_task(),
            kind: None,
            body: 0,
        }
    }

    // The position in a file of the last record's kind.
    #[tactic(auto, unfolding(taskformat::specs::Format::position_of, taskformat::specs::Format::first_place, taskformat::specs::Format::file_order))]
    pub(crate) fn position(&self) -> usize
        ensures { result ≡ position_of (last_kind self.now.kind) }
    {
        match self.kind {
            Some(kind) => kind.position(),
            None => 0,
        }
    }

    // The last record has this kind too.
    pub(crate) fn repeats(&self, kind: Kind) -> bool
        ensures { result ≡ eqb (kind_number kind) (last_kind self.now.kind) }
    {
        match self.kind {
            Some(last) => kind == last,
            None => false,
        }
    }
}
