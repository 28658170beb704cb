// The walk's place in a text, and how one word takes it on (02, request 4).
ghost use Rattle.std.specs.Prelude.{◌≡◌};
ghost use Rattle.layout.specs.Walking.{reach};
ghost use Rattle.pddlreader.specs.Cursors.{tried, had_to_stand, is_whole};

// Where the walk has come to, whether every word stood that had to, and how far the text goes with the layout.
#[derive(Clone, Copy)]
pub(crate) struct Cursor {
    pub(crate) good: bool,
    pub(crate) at: usize,
    pub(crate) far: usize,
}

// How many bytes of the word stand at a place of the text.
fn alike_at(s: &[u8], at: usize, word: &[u8]) -> usize
    ensures { result ≡ reach s.now at word.now }
{
    let left = s.get(at..).unwrap_or(&[]);
    left.iter()
        .zip(word)
        .position(|(a, b)| a != b)
        .unwrap_or(left.len().min(word.len()))
}

impl Cursor {
    // A word that may stand here: whether it does. Where one is missing that had to, nothing is taken any more.
    pub(crate) fn takes(&mut self, s: &[u8], word: &[u8]) -> bool
        ensures { record { taken = result; cursor = self.new } ≡ tried s.now self.old word.now }
    {
        if !self.good {
            return false;
        }
        let stands = alike_at(s, self.at, word);
        self.far = self.far.max(self.at + stands);
        if stands != word.len() {
            return false;
        }
        self.at += stands;
        true
    }

    // A word that has to stand here.
    pub(crate) fn expect(&mut self, s: &[u8], word: &[u8])
        ensures { self.new ≡ had_to_stand (tried s.now self.old word.now) }
    {
        self.good = self.takes(s, word);
    }

    // Every word stood that had to, and nothing is left of the text.
    pub(crate) fn is_whole(self, text: &[u8]) -> bool
        ensures { result ≡ is_whole self text.now }
    {
        self.good & (self.at == text.len())
    }
}
