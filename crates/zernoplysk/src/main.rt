// The program: reads a task file from standard input and writes its listing (document 01, "The listing").

#![tactic(auto)]

ghost use Rattle.std.specs.Prelude.{take};
ghost use Rattle.table.specs.Outcomes.{reply_of};
ghost use Rattle.listing.specs.Listing.{ListsInto};
ghost use Rattle.zernoplysk.specs.Printing.{Prints};

use listing::LONGEST_TEXT;
use stdio::{complain, read_full};
use table::refusals::Refusal;
use taskfile::MOST_INPUT;

// The listing of the first `got` bytes, or of all where there are no more.
fn first_listed(input: &[u8], got: usize, room: &mut [u8]) -> Result<usize, Refusal>
    ensures { ListsInto (take got input.now) room.old (record { reply = reply_of result; room = room.new }) }
{
    if got < input.len() {
        return listing::listing(&input[..got], room);
    }
    listing::listing(input, room)
}

// How many bytes of the text are to be written: the listing of what was read, whatever stands after it. A buffer or a room of
// another length does not do.
fn listed(input: &[u8; MOST_INPUT], got: usize, text: &mut [u8; LONGEST_TEXT]) -> usize
    ensures { Prints input.now got text.old result text.new }
{
    first_listed(input, got, text).unwrap()
}

fn main(rt: HostRuntime) {
    let mut input = [0u8; MOST_INPUT];
    let Ok(got) = read_full(&mut rt.stdin(), &mut input) else {
        complain(&rt, "zernoplysk: standard input can't be read");
        return;
    };
    let mut text = [0u8; LONGEST_TEXT];
    let length = listed(&input, got, &mut text);
    if rt.write_all(&text[..length]).is_err() {
        complain(&rt, "zernoplysk: standard output can't be written");
    }
}
