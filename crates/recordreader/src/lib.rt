// Handing out one record after another from the lent file bytes (document 01, "The task file" and "What to write where"):
// a thin struct of the file's slice and a place in it. Each method takes the struct apart and leaves the work to a
// function on slice and place.

#![tactic(auto)]

ghost use Rattle.std.specs.Prelude.{◌≡◌};
ghost use Rattle.records.specs.Records.{record_at, record_told, body_of};
ghost use Rattle.recordreader.specs.Places.{place_after};

use records::record::{Record, body_at, record_at};
use table::refusals::Refusal;

#[derive(Clone, Copy)]
pub struct Reader<'a> {
    pub file: &'a [u8],
    pub at: usize,
}

// The work of moving on. Where the record is refused the place stays, so that asking again tells the same refusal.
pub fn place_after(s: &[u8], at: usize) -> usize
    ensures { result ≡ place_after s.now at }
{
    match record_at(s, at) {
        Ok(record) => record.next,
        Err(_) => at,
    }
}

impl<'a> Reader<'a> {
    pub fn new(file: &'a [u8]) -> Reader<'a>
        ensures { (result.file ≡ file.entry) × (result.at ≡ 0) }
    {
        Reader { file, at: 0 }
    }

    // The record at the reader's place: kind, body and next place, or 1 or 2 at that place.
    pub fn next(self) -> Result<Record, Refusal>
        ensures { record_told result ≡ record_at self.entry.file.now self.entry.at }
    {
        record_at(self.file, self.at)
    }

    // That record's body, as that part of the file; an empty part where the record is refused.
    pub fn body(self) -> &'a [u8]
        ensures { result.now ≡ body_of self.entry.file.now self.entry.at }
    {
        body_at(self.file, self.at)
    }

    // The same file, at the next record.
    pub fn moved_on(self) -> Reader<'a>
        ensures { (result.file ≡ self.entry.file) × (result.at ≡ place_after self.entry.file.now self.entry.at) }
    {
        Reader {
            file: self.file,
            at: place_after(self.file, self.at),
        }
    }
}
