// The whole texts, in the order of docs/PDDL.md.
ghost use Rattle.std.specs.Prelude.{◌+◌, ◌≤◌, length};
ghost use Rattle.room.specs.Placing.{last_place, Placed};
ghost use Rattle.table.specs.Lists.{gather};
ghost use Rattle.table.specs.Sizes.{max_facts};
ghost use Rattle.table.specs.Tasks.{WellFormed};
ghost use Rattle.pddl.specs.Texts.{action_text, action_of, domain_text, problem_text};
ghost use Rattle.pddlwriter.specs.Pieces.{through_needs};

use crate::lines::{predicates, set_lines};
use pddlwords::{Line, action_head};
use room::put_word;
use table::Task;

fn through_needs(room: &mut [u8], at: usize, facts: usize, action: usize, needs: u64) -> usize
    requires { at + length (through_needs facts action needs) ≤ last_place }
    ensures { Placed room.old room.new at result (through_needs facts action needs) }
{
    let next = put_word(room, at, action_head(action).text());
    set_lines(room, next, Line::Fact, facts, needs)
}

// "adds before deletes" (02, request 4)
fn put_action(
    room: &mut [u8],
    at: usize,
    facts: usize,
    action: usize,
    needs: u64,
    adds: u64,
    deletes: u64,
) -> usize
    requires { at + length (action_text facts action needs adds deletes) ≤ last_place }
    ensures { Placed room.old room.new at result (action_text facts action needs adds deletes) }
{
    let next = through_needs(room, at, facts, action, needs);
    let next = put_word(room, next, b"   )\n   :effect (and\n");
    let next = set_lines(room, next, Line::Fact, facts, adds);
    let next = set_lines(room, next, Line::Deleted, facts, deletes);
    put_word(room, next, b"   )\n  )\n")
}

fn put_actions(task: Task, room: &mut [u8], at: usize) -> usize
    requires well_formed { WellFormed task }
    requires actions_bound { at + length (gather (action_of task.table) task.table.actions) ≤ last_place }
    ensures { Placed room.old room.new at result (gather (action_of task.table) task.table.actions) }
{
    let table = &task.table;
    let mut next = at;
    for action in 0..table.actions {
        next = put_action(
            room,
            next,
            table.facts,
            action,
            table.needs[action],
            table.adds[action],
            table.deletes[action],
        );
    }
    next
}

// The place past the domain text, whether the room goes so far or not.
#[tactic(auto, using(crate::proofs::PartLaws::domain_parts))]
pub(crate) fn whole_domain(task: Task, room: &mut [u8]) -> usize
    requires { WellFormed task }
    ensures { Placed room.old room.new 0 result (domain_text task.table) }
{
    let next = put_word(
        room,
        0,
        b"(define (domain stage)\n  (:requirements :strips)\n  (:predicates\n",
    );
    let next = predicates(room, next, task.table.facts);
    let next = put_word(room, next, b"  )\n");
    let next = put_actions(task, room, next);
    put_word(room, next, b")\n")
}

// The same of a problem text.
#[tactic(auto, using(crate::proofs::PartLaws::problem_parts))]
pub(crate) fn whole_problem(room: &mut [u8], facts: usize, start: u64, goal: u64) -> usize
    requires { facts ≤ max_facts }
    ensures { Placed room.old room.new 0 result (problem_text facts start goal) }
{
    let next = put_word(
        room,
        0,
        b"(define (problem run)\n  (:domain stage)\n  (:init\n",
    );
    let next = set_lines(room, next, Line::Fact, facts, start);
    let next = put_word(room, next, b"  )\n  (:goal (and\n");
    let next = set_lines(room, next, Line::Fact, facts, goal);
    put_word(room, next, b"  ))\n)\n")
}
