// The first fault of the record at a place (document 01, "Refusal numbers": "within it 1 (no kind byte), 2, 3, 1 (short
// body), 4, 5, 6, 7"; 02, request 1: 16 "after 6 and before 7"; 02, request 6: 18 "after 6 and 16"), and which of its bytes is
// wrong (02, request 2).
ghost use Rattle.std.specs.Prelude.{◌≡◌, ◌+◌, ◌<◌, ◌^◌};
ghost use Rattle.table.specs.Refusals.{first_of};
ghost use Rattle.table.specs.Outcomes.{fault_told};
ghost use Rattle.taskformat.specs.Format.{body_length};
ghost use Rattle.taskformat.specs.Reading.{misplaced, sizes_wrong, first_outside, kind_disordered, lock_stray};
ghost use Rattle.records.specs.Kinds.{kind_number};
ghost use Rattle.records.specs.Records.{seen_of, body_disordered, full, body_checks, Checks};

use crate::kinds::Kind;
use crate::parts::Parts;
use crate::seen::{Seen, last_run};
use table::refusals::{Refusal, Why};
use table::{ACTIONS, FACTS, LIMIT, RUNS, STEPS, Table};

// 3: the first kind is not that of the sizes, or the sizes come again.
#[tactic(auto, unfolding(taskformat::specs::Reading::misplaced))]
fn is_misplaced(seen: &Seen, kind: Kind) -> bool
    ensures { result ≡ misplaced (seen_of seen.now) (kind_number kind) }
{
    match seen.kind {
        None => kind != Kind::Sizes,
        Some(_) => kind == Kind::Sizes,
    }
}

// 4: a size is out of range.
#[tactic(auto, unfolding(taskformat::specs::Reading::sizes_wrong))]
fn sizes_wrong(f: usize, a: usize, l: usize) -> bool
    ensures { result ≡ sizes_wrong f a l }
{
    !((0 < f) & (f <= FACTS) & ((0 < a) & (a <= ACTIONS)) & (l <= LIMIT))
}

// 5: the first number of a body is outside: the fact of a start or goal, the action of a cell or step.
fn is_first_outside(table: &Table, kind: Kind, x: usize) -> bool
    ensures { result ≡ first_outside table.now (kind_number kind) x }
{
    (kind.is_fact() & (table.facts <= x))
        | ((kind.is_cell() | (kind == Kind::Step)) & (table.actions <= x))
}

// 6: the kind goes down, by its position in a file; a further run never does, and begins the order anew. Or a cell of the table
// comes after it.
fn is_kind_disordered(seen: &Seen, kind: Kind) -> bool
    ensures { result ≡ kind_disordered (seen_of seen.now) (kind_number kind) }
{
    ((kind != Kind::Run) & (kind.position() < seen.position()))
        | (kind.is_cell() & (0 < last_run(&seen.task.runs)))
}

// 6: the body does not ascend.
fn is_body_disordered(seen: &Seen, parts: Parts) -> bool
    ensures { result ≡ body_disordered (seen_of seen.now) (kind_number parts.kind) parts.first parts.second }
{
    seen.repeats(parts.kind)
        & (parts.kind.is_fact() | parts.kind.is_cell())
        & (parts.number() <= seen.body)
}

// 18: a lock on a cell that is not a need (02, request 6); x is the action, y the fact.
#[tactic(auto, using(facts::proofs::Laws::has_empty), unfolding(taskformat::specs::Reading::lock_stray))]
fn is_stray_lock(needs: &[u64], kind: Kind, x: usize, y: usize) -> bool
    ensures { result ≡ lock_stray needs.now (kind_number kind) x y }
{
    if kind != Kind::Lock {
        return false;
    }
    match needs.get(x) {
        Some(&needs) => !facts::contains(needs, y),
        None => true,
    }
}

// 7: a step where the run that was opened last is full.
fn is_step_too_many(seen: &Seen, kind: Kind) -> bool
    ensures { result ≡ full (seen_of seen.now) (kind_number kind) }
{
    if kind != Kind::Step {
        return false;
    }
    match seen.task.runs.counts.get(last_run(&seen.task.runs)) {
        Some(&count) => STEPS <= count,
        None => false,
    }
}

// The bytes of a record behind its kind byte that can be wrong, counted from its start.
const FIRST_BYTE: usize = 1;

const SECOND_BYTE: usize = 2;

// The first of the faults that a whole body can have, and at which byte.
#[tactic(auto, unfolding(crate::specs::Records::body_checks, table::specs::Refusals::first_of, taskformat::specs::Format::body_length))]
fn check_body(at: usize, seen: &Seen, parts: Parts) -> Result<(), Refusal>
    requires { at + 1 + body_length (kind_number parts.kind) < 2 ^ 64 }
    ensures { fault_told result ≡ first_of (body_checks at (seen_of seen.now) (kind_number parts.kind) parts.first parts.second parts.third) }
{
    let kind = parts.kind;
    let table = &seen.task.table;
    let x = usize::from(parts.first);
    let y = usize::from(parts.second);
    if (kind == Kind::Sizes) & sizes_wrong(x, y, usize::from(parts.third)) {
        return Err(Why::SizeOutside.at(at));
    }
    if is_first_outside(table, kind, x) {
        return Err(Why::NumberOutside.at(at + FIRST_BYTE));
    }
    if kind.is_cell() & (table.facts <= y) {
        return Err(Why::NumberOutside.at(at + SECOND_BYTE));
    }
    if is_kind_disordered(seen, kind) {
        return Err(Why::NotAscending.at(at));
    }
    if is_body_disordered(seen, parts) {
        return Err(Why::NotAscending.at(at + FIRST_BYTE));
    }
    if (kind == Kind::Run) & (RUNS <= seen.task.runs.many) {
        return Err(Why::TooManyRuns.at(at));
    }
    if is_stray_lock(&table.needs, kind, x, y) {
        return Err(Why::LockWithoutNeed.at(at));
    }
    if is_step_too_many(seen, kind) {
        return Err(Why::TooManySteps.at(at));
    }
    Ok(())
}

// The record at a place, after records that have said this, or its first fault.
pub fn check(s: &[u8], at: usize, seen: &Seen) -> Result<Parts, Refusal>
    ensures { Checks s.now at (seen_of seen.now) result }
{
    let Some(&byte) = s.get(at) else {
        return Err(Why::NoEnd.at(at));
    };
    let Some(kind) = Kind::of(byte) else {
        return Err(Why::UnknownKind.at(at));
    };
    if is_misplaced(seen, kind) {
        return Err(Why::SizesMisplaced.at(at));
    }
    let body = &s[at + 1..];
    if body.len() < kind.body_length() {
        return Err(Why::NoEnd.at(at));
    }
    let parts = Parts::of(kind, body);
    check_body(at, seen, parts)?;
    Ok(parts)
}
