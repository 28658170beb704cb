// The program: reads PDDL texts from standard input (02, request 4; docs/PDDL.md), a domain text and its problem texts, and directly behind
// them a task file, of which only the limit and the steps are taken. It writes the task file of what they say together, which has no locks
// (02, request 6), or the refusal.

#![tactic(auto)]

mod gather;
mod split;
mod together;

ghost use Rattle.table.specs.Tasks.{WellFormed};
ghost use Rattle.frompddl.specs.Together.{HoldsFile};

use pddlwriter::{LONGEST_DOMAIN, LONGEST_PROBLEM};
use std::io;
use stdio::{complain, read_full};
use table::refusals::Refusal;
use table::{RUNS, Task};
use taskfile::MOST_INPUT;
use together::put_together;

// How much is looked at: the longest texts, and as much of the task file as zernoplysk reads.
const MOST_BYTES: usize = LONGEST_DOMAIN + RUNS * LONGEST_PROBLEM + MOST_INPUT;

fn print_refusal(rt: &impl Print, refusal: Refusal) -> io::Result<()> {
    println!(rt; "refused {} {}", refusal.why.number(), refusal.place)
}

// How many bytes of the room are the task's file: never is it too short.
fn whole_file(task: Task, room: &mut [u8; MOST_INPUT]) -> usize
    requires { WellFormed task }
    ensures { HoldsFile task room.old result room.new }
{
    taskwriter::write(task, room).unwrap()
}

fn print_file(rt: &impl Print, task: Task) -> io::Result<()>
    requires { WellFormed task }
{
    let mut room = [0u8; MOST_INPUT];
    let length = whole_file(task, &mut room);
    rt.write_all(&room[..length])
}

fn print_answer(rt: &impl Print, input: &[u8]) -> io::Result<()> {
    match put_together(input) {
        Ok(task) => print_file(rt, task),
        Err(refusal) => print_refusal(rt, refusal),
    }
}

fn main(rt: HostRuntime) {
    let mut input = [0u8; MOST_BYTES];
    let Ok(got) = read_full(&mut rt.stdin(), &mut input) else {
        complain(&rt, "frompddl: standard input can't be read");
        return;
    };
    if print_answer(&rt, &input[..got]).is_err() {
        complain(&rt, "frompddl: standard output can't be written");
    }
}
