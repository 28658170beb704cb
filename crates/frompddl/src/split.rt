// Where the texts of the input end, and the task file behind them begins.
ghost use Rattle.std.specs.Prelude.{◌≡◌};
ghost use Rattle.frompddl.specs.Splitting.{closing, text_end, is_text, TextsEnd};

// Whether the bytes of a line `)` stand here: the line feed before it, the parenthesis and its own line feed.
fn closes(s: &[u8], at: usize) -> bool
    ensures { result ≡ closing s.now at }
{
    at < s.len() && s[at..].starts_with(b"\n)\n")
}

// The place behind the text that begins here.
pub(crate) fn text_end(s: &[u8], from: usize) -> usize
    ensures { result ≡ text_end s.now from }
{
    match (from..s.len()).find(|&at| closes(s, at)) {
        Some(at) => at + 3,
        None => s.len(),
    }
}

// A text begins here, and not the task file.
pub(crate) fn is_text(s: &[u8], at: usize) -> bool
    ensures { result ≡ is_text s.now at }
{
    at < s.len() && s[at] == b'('
}

// The place behind the last text. The first is that of the domain, whatever it begins with.
pub(crate) fn file_start(s: &[u8]) -> usize
    ensures { TextsEnd s.now result (text_end s.now 0) }
{
    let mut at = text_end(s, 0);
    while is_text(s, at) {
        at = text_end(s, at);
    }
    at
}
