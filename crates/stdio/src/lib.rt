// What the programs have in common: standard input read whole, and a line on standard error.

#![tactic(auto)]

ghost use Rattle.std.specs.Prelude.{take, length, ◌≡◌, ◌≤◌, IfOk, IfSome};

use std::io;
use std::io::Read;

// Reads until the buffer is full or the input ends, and returns how many bytes it put at the start of the buffer: of the bytes that
// stood there, all that the buffer has room for.
pub fn read_full<R: Read>(input: &mut R, buffer: &mut [u8]) -> io::Result<usize>
    ensures within { IfOk result (λ n. n ≤ length buffer.new) }
    ensures bytes { IfOk result (λ n. IfSome (R.remaining input.old) (λ s. take n buffer.new ≡ take (length buffer.new) s)) }
{
    let mut got = 0;
    while got < buffer.len() {
        let more = input.read(&mut buffer[got..])?;
        if more == 0 {
            break;
        }
        got += more;
    }
    Ok(got)
}

// Says on standard error what went wrong. There is nowhere to say that this can't be written.
pub fn complain(rt: &impl Eprint, line: &str) {
    let _ = rt.eprintln(line);
}
