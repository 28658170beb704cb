// A numbered word as the writers and the readers take it.
ghost use Rattle.std.specs.Prelude.{◌≡◌, ◌≤◌, take};

// Room for the longest, the head of an action.
pub(crate) const ROOM: usize = 64;

// A word is the first `len` of the bytes. Without a heap it takes an array that has room for each.
#[derive(Clone, Copy)]
pub struct Word {
    pub(crate) bytes: [u8; ROOM],
    pub(crate) len: usize,
    ghost within: { len ≤ 64 },
}

impl Word {
    pub fn text(&self) -> &[u8]
        ensures { result.now ≡ take self.now.len self.now.bytes }
    {
        &self.bytes[..self.len]
    }
}
