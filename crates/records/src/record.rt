// The record at any place of the lent bytes (document 01, "The task file": "The reader hands out one record after
// another"): kind, body and next place, or 1 or 2 at that place. Sizes, ranges and order are judged by reading the file.
ghost use Rattle.std.specs.Prelude.{◌≡◌};
ghost use Rattle.records.specs.Records.{record_at, record_told, body_of};

use crate::kinds::Kind;
use table::ACCEPTED;
use table::refusals::{Refusal, Why};

// The kind, where the body stands and how long it is, and the next place.
#[derive(Clone, Copy, PartialEq, Eq, Debug)]
pub struct Record {
    pub kind: Kind,
    pub start: usize,
    pub length: usize,
    pub next: usize,
}

// The same in 01's numbers, as it crosses to C: number and place 0 with the record; or the refusal's number and the place asked, and zeros.
#[derive(Clone, Copy)]
pub struct RecordReply {
    pub number: usize,
    pub place: usize,
    pub kind: usize,
    pub start: usize,
    pub length: usize,
    pub next: usize,
}

impl From<Result<Record, Refusal>> for RecordReply {
    ghost from_gives = { λ found y. y ≡ record_told found };

    fn from(found: Result<Record, Refusal>) -> RecordReply {
        match found {
            Ok(record) => RecordReply {
                number: ACCEPTED,
                place: 0,
                kind: usize::from(record.kind.number()),
                start: record.start,
                length: record.length,
                next: record.next,
            },
            Err(refusal) => RecordReply {
                number: refusal.why.number(),
                place: refusal.place,
                kind: 0,
                start: 0,
                length: 0,
                next: 0,
            },
        }
    }
}

#[tactic(auto, unfolding(crate::specs::Records::record_at, crate::specs::Records::record_fault, table::specs::Refusals::first_of))]
pub fn record_at(s: &[u8], at: usize) -> Result<Record, Refusal>
    ensures { record_told result ≡ record_at s.now at }
{
    let Some(&byte) = s.get(at) else {
        return Err(Why::NoEnd.at(at));
    };
    let Some(kind) = Kind::of(byte) else {
        return Err(Why::UnknownKind.at(at));
    };
    let start = at + 1;
    let length = kind.body_length();
    if s.len() - start < length {
        return Err(Why::NoEnd.at(at));
    }
    Ok(Record {
        kind,
        start,
        length,
        next: start + length,
    })
}

// The body of the record at a place, as that part of the lent bytes; an empty part where the record is refused.
#[tactic(auto, using(crate::proofs::RecordLaws::placed), unfolding(crate::specs::Records::body_of))]
pub fn body_at<'a>(s: &'a [u8], at: usize) -> &'a [u8]
    ensures { result.now ≡ body_of s.now at }
{
    match record_at(s, at) {
        Ok(record) => &s[record.start..record.next],
        Err(_) => &s[0..0],
    }
}
