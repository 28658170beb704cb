// The calls of 02, request 4: a task's PDDL texts into lent room, a text read back, and a task put together again run by run.
ghost use Rattle.boundary.specs.BoundaryCalls.{WritesDomain, WritesProblem, HandsDomain, HandsProblem, AddsRun};

use crate::{ANSWER_TOO_SHORT, CHANGED_WORDS, PROBLEM_WORDS, REPLY_WORDS, TASK_ANSWER_WORDS};
use addrun::add_run;
use pddl::ProblemReply;
use pddlreader::{read_domain, read_problem};
use pddlwriter::{write_domain, write_problem};
use table::{Reply, TaskReply};
use taskwords::answer::{give_back, give_changed, give_problem, give_reply, give_task};
use taskwords::words::task_in;

// The task's domain text into lent room.
#[unsafe(no_mangle)]
pub extern "C" fn zp_write_domain(task: &[u64], room: &mut [u8], answer: &mut [u64]) -> usize
    ensures { WritesDomain task.now room.old room.new answer.old answer.new result }
{
    if answer.len() < REPLY_WORDS {
        return ANSWER_TOO_SHORT;
    }
    let t = task_in(task);
    let reply = Reply::from(write_domain(t, room));
    give_reply(reply, answer)
}

// The problem text of the run named into lent room.
#[unsafe(no_mangle)]
pub extern "C" fn zp_write_problem(
    task: &[u64],
    run: usize,
    room: &mut [u8],
    answer: &mut [u64],
) -> usize
    ensures { WritesProblem task.now run room.old room.new answer.old answer.new result }
{
    if answer.len() < REPLY_WORDS {
        return ANSWER_TOO_SHORT;
    }
    let t = task_in(task);
    let reply = Reply::from(write_problem(t, run, room));
    give_reply(reply, answer)
}

// The table of a domain text, with the limit that is passed beside it, as a task that has no run yet.
#[unsafe(no_mangle)]
pub extern "C" fn zp_read_domain(text: &[u8], limit: usize, answer: &mut [u64]) -> usize
    ensures { HandsDomain text.now limit answer.old answer.new result }
{
    if answer.len() < TASK_ANSWER_WORDS {
        return ANSWER_TOO_SHORT;
    }
    give_task(TaskReply::from(read_domain(text, limit)), answer)
}

// The start and the goal of a problem text over so many facts.
#[unsafe(no_mangle)]
pub extern "C" fn zp_read_problem(text: &[u8], facts: usize, answer: &mut [u64]) -> usize
    ensures { HandsProblem text.now facts answer.old answer.new result }
{
    if answer.len() < PROBLEM_WORDS {
        return ANSWER_TOO_SHORT;
    }
    let found = ProblemReply::from(read_problem(text, facts));
    give_problem(found.number, found.place, found.start, found.goal, answer)
}

// One run more, after those that the task has, in the task's words.
#[unsafe(no_mangle)]
pub extern "C" fn zp_add_run(
    task: &mut [u64],
    start: u64,
    goal: u64,
    steps: &[u8],
    answer: &mut [u64],
) -> usize
    ensures { AddsRun task.old task.new start goal steps.now answer.old answer.new result }
{
    if answer.len() < CHANGED_WORDS {
        return ANSWER_TOO_SHORT;
    }
    let t = task_in(task);
    let TaskReply {
        number,
        place,
        task: longer,
    } = TaskReply::from(add_run(t, start, goal, steps));
    give_back(number, longer, task);
    give_changed(number, place, answer)
}
