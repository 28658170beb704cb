// Writing a task's domain text and the problem text of each run (02, request 4; docs/PDDL.md).

#![tactic(auto)]

mod lines;
mod texts;

ghost use Rattle.std.specs.Prelude.{◌≡◌, ◌≤◌};
ghost use Rattle.table.specs.Outcomes.{Outcome, given, reply_of};
ghost use Rattle.table.specs.Sizes.{max_facts};
ghost use Rattle.pddl.specs.Lengths.{longest_domain, longest_problem};
ghost use Rattle.pddl.specs.Texts.{problem_text};
ghost use Rattle.pddlwriter.specs.Writing.{domain_written, problem_written};

use room::give;
use table::Task;
use table::formed::is_formed;
use table::refusals::{Refusal, Why};
use texts::{whole_domain, whole_problem};

// Room that every domain text fits in, and every problem text.
pub const LONGEST_DOMAIN: usize = 76178;

pub const LONGEST_PROBLEM: usize = 1334;

// The code's numbers are the definitions'.
pub fn longest_domain() -> usize
    ensures { result ≡ longest_domain }
{
    LONGEST_DOMAIN
}

pub fn longest_problem() -> usize
    ensures { result ≡ longest_problem }
{
    LONGEST_PROBLEM
}

// The domain text into the lent room, from its first place on and nothing beside; or 12, or 11, and nothing written.
#[tactic(auto, using(crate::proofs::WritingLaws::is_well))]
pub fn write_domain(task: Task, room: &mut [u8]) -> Result<usize, Refusal>
    ensures { ◌≡◌ {A = Outcome} (record { reply = reply_of result; room = room.new }) (domain_written task room.old) }
{
    if !is_formed(task) {
        return Err(Why::NotWellFormed.at(0));
    }
    give(|room| whole_domain(task, room), room)
}

// The problem text of a run; or 12, or 14 for a run that isn't there, or 11.
#[tactic(auto, using(crate::proofs::WritingLaws::is_well))]
pub fn write_problem(task: Task, run: usize, room: &mut [u8]) -> Result<usize, Refusal>
    ensures { ◌≡◌ {A = Outcome} (record { reply = reply_of result; room = room.new }) (problem_written task run room.old) }
{
    if !is_formed(task) {
        return Err(Why::NotWellFormed.at(0));
    }
    if task.runs.many <= run {
        return Err(Why::NotThere.at(0));
    }
    let facts = task.table.facts;
    let start = task.runs.starts[run];
    let goal = task.runs.goals[run];
    give(|room| whole_problem(room, facts, start, goal), room)
}
