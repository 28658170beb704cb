// The program: reads a task file from standard input and writes its repaired table as PDDL (02, request 4; docs/PDDL.md): the domain
// text, which does not carry the locks (02, request 6), and directly behind it the problem text of each run, in order. Where the file or its
// solve is refused it writes the listing.

#![tactic(auto)]

mod texts;

ghost use Rattle.std.specs.Prelude.{◌≤◌};
ghost use Rattle.table.specs.Tasks.{WellFormed};

use listing::LONGEST_TEXT;
use pddlwriter::LONGEST_DOMAIN;
use std::io;
use stdio::{complain, read_full};
use table::Task;
use taskfile::MOST_INPUT;
use texts::{repaired, whole_text};

fn print_listing(rt: &impl Print, input: &[u8]) -> io::Result<()> {
    let mut room = [0u8; LONGEST_TEXT];
    let length = listing::listing(input, &mut room).unwrap();
    rt.write_all(&room[..length])
}

fn print_text(rt: &impl Print, task: Task, number: usize) -> io::Result<()>
    requires well_formed { WellFormed task }
    requires number_le_many { number ≤ task.runs.many }
{
    let mut room = [0u8; LONGEST_DOMAIN];
    let length = whole_text(task, number, &mut room);
    rt.write_all(&room[..length])
}

fn print_texts(rt: &impl Print, task: Task) -> io::Result<()>
    requires { WellFormed task }
{
    for number in 0..=task.runs.many {
        print_text(rt, task, number)?;
    }
    Ok(())
}

fn print_answer(rt: &impl Print, input: &[u8]) -> io::Result<()> {
    match repaired(input) {
        Ok(task) => print_texts(rt, task),
        Err(_) => print_listing(rt, input),
    }
}

fn main(rt: HostRuntime) {
    let mut input = [0u8; MOST_INPUT];
    let Ok(got) = read_full(&mut rt.stdin(), &mut input) else {
        complain(&rt, "topddl: standard input can't be read");
        return;
    };
    if print_answer(&rt, &input[..got]).is_err() {
        complain(&rt, "topddl: standard output can't be written");
    }
}
