// The kind of a record and the bytes of its body; past the end they are 0, as the definitions have them.
ghost use Rattle.std.specs.Prelude.{◌≡◌, get_or};
ghost use Rattle.records.specs.Kinds.{kind_number};
ghost use Rattle.records.specs.Records.{number_of_body};

use crate::kinds::Kind;

// How many values a byte has.
const BYTE: usize = 256;

#[derive(Clone, Copy, PartialEq, Eq, Debug)]
pub struct Parts {
    pub kind: Kind,
    pub first: u8,
    pub second: u8,
    pub third: u8,
}

fn byte_of(body: &[u8], i: usize) -> u8
    ensures { result ≡ get_or body.now i 0 }
{
    body.get(i).copied().unwrap_or(0)
}

impl Parts {
    pub(crate) fn of(kind: Kind, body: &[u8]) -> Parts
        ensures { result ≡ record { kind = kind; first = get_or body.now 0 0; second = get_or body.now 1 0; third = get_or body.now 2 0 } }
    {
        Parts {
            kind,
            first: byte_of(body, 0),
            second: byte_of(body, 1),
            third: byte_of(body, 2),
        }
    }

    // The body as one number, first number first.
    pub fn number(self) -> usize
        ensures { result ≡ number_of_body (kind_number self.kind) self.first self.second }
    {
        let first = usize::from(self.first);
        if self.kind.is_cell() {
            BYTE * first + usize::from(self.second)
        } else {
            first
        }
    }
}
