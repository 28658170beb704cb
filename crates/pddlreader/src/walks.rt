// The walk along a whole text (docs/PDDL.md), from its first byte on.
ghost use Rattle.pddlreader.specs.Walks.{WalksDomain, WalksProblem};

use crate::cursor::Cursor;
use pddl::RunEnds;
use pddlwords::Line;
use table::Table;

const START: Cursor = Cursor {
    good: true,
    at: 0,
    far: 0,
};

pub(crate) fn walk_domain(text: &[u8], limit: usize) -> (Cursor, Table)
    ensures { WalksDomain limit text.now (record { cursor = result.0; table = result.1 }) }
{
    let mut walk = START;
    walk.expect(
        text,
        b"(define (domain stage)\n  (:requirements :strips)\n  (:predicates\n",
    );
    walk.good = walk.takes_line(text, Line::Fact, 0);
    let facts = walk.read_count(text);
    walk.expect(text, b"  )\n");
    let table = walk.read_actions(text, facts, limit);
    walk.expect(text, b")\n");
    (walk, table)
}

pub(crate) fn walk_problem(text: &[u8], facts: usize) -> (Cursor, RunEnds)
    ensures { WalksProblem facts text.now (record { cursor = result.0; start = result.1.start; goal = result.1.goal }) }
{
    let mut walk = START;
    walk.expect(
        text,
        b"(define (problem run)\n  (:domain stage)\n  (:init\n",
    );
    let start = walk.read_set(text, facts, Line::Fact);
    walk.expect(text, b"  )\n  (:goal (and\n");
    let goal = walk.read_set(text, facts, Line::Fact);
    walk.expect(text, b"  ))\n)\n");
    (walk, RunEnds { start, goal })
}
