// Why a call is refused, and where (documents 01 and 02, "Refusal numbers"); `number` shows that the numbers are those of specs/Refusals.
ghost use Rattle.std.specs.Prelude.{◌≡◌};
ghost use Rattle.table.specs.Refusals.{number_of};

use crate::Task;

#[derive(Clone, Copy, PartialEq, Eq, Debug)]
pub enum Why {
    NoEnd,
    UnknownKind,
    SizesMisplaced,
    SizeOutside,
    NumberOutside,
    NotAscending,
    TooManySteps,
    BytesAfterEnd,
    NoListWorks,
    OverTheLimit,
    RoomTooShort,
    NotWellFormed,
    NotASession,
    NotThere,
    ListNotPermitted,
    TooManyRuns,
    NotTheLayout,
    LockWithoutNeed,
}

impl Why {
    pub fn number(self) -> usize
        ensures { result ≡ number_of self }
    {
        match self {
            Why::NoEnd => 1,
            Why::UnknownKind => 2,
            Why::SizesMisplaced => 3,
            Why::SizeOutside => 4,
            Why::NumberOutside => 5,
            Why::NotAscending => 6,
            Why::TooManySteps => 7,
            Why::BytesAfterEnd => 8,
            Why::NoListWorks => 9,
            Why::OverTheLimit => 10,
            Why::RoomTooShort => 11,
            Why::NotWellFormed => 12,
            Why::NotASession => 13,
            Why::NotThere => 14,
            Why::ListNotPermitted => 15,
            Why::TooManyRuns => 16,
            Why::NotTheLayout => 17,
            Why::LockWithoutNeed => 18,
        }
    }

    // A refusal at a place of a file, of a list or of a text.
    pub fn at(self, place: usize) -> Refusal
        ensures { result ≡ record { why = self; place = place } }
    {
        Refusal { why: self, place }
    }
}

// Why, and at which place.
#[derive(Clone, Copy, PartialEq, Eq, Debug)]
pub struct Refusal {
    pub why: Why,
    pub place: usize,
}

impl Refusal {
    // The same of a call that returns the task it was given.
    pub fn returning(self, task: Task) -> Returned
        ensures { result ≡ record { refusal = self; task = task } }
    {
        Returned {
            refusal: self,
            task,
        }
    }
}

// Where 01 names no place it is 0.
impl From<Why> for Refusal {
    ghost from_gives = { λ why r. r ≡ record { why = why; place = 0 } };

    fn from(why: Why) -> Refusal {
        why.at(0)
    }
}

// "A refused edit or a refused applying of a list returns the task it was given", and so does a refused run more.
// (The task first, where it stands in an accepted answer too: else the compiler copies it four bytes at a time.)
#[derive(Clone, Copy)]
pub struct Returned {
    pub task: Task,
    pub refusal: Refusal,
}
