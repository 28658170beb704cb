// The static library for C and Rust (docs/BOUNDARY.md): each function of `boundary` once more, as an `extern "C"` function under
// its own name, with its clauses. A crate is a library or a static library, and no crate stands on a static library: what is
// promised is said of `boundary`'s functions, and each function here only calls its one.

#![tactic(auto)]

pub mod texts;

ghost use Rattle.boundary.specs.BoundaryCalls.{HandsRecord, ReadsTask, WritesTask, ChecksRun, AppliesList, SolvesTask, OpensSession, EditsSession, ListsSession, ListsInput};

// The record at a place of the file; its body is `length` bytes of the file from `start` on.
#[unsafe(no_mangle)]
pub extern "C" fn zp_record(file: &[u8], at: usize, answer: &mut [u64]) -> usize
    ensures { HandsRecord file.now at answer.old answer.new result }
{
    boundary::zp_record(file, at, answer)
}

// The task of a file.
#[unsafe(no_mangle)]
pub extern "C" fn zp_read(file: &[u8], answer: &mut [u64]) -> usize
    ensures { ReadsTask file.now answer.old answer.new result }
{
    boundary::zp_read(file, answer)
}

// The task's file into lent room.
#[unsafe(no_mangle)]
pub extern "C" fn zp_write(task: &[u64], room: &mut [u8], answer: &mut [u64]) -> usize
    ensures { WritesTask task.now room.old room.new answer.old answer.new result }
{
    boundary::zp_write(task, room, answer)
}

// The run check of the run named.
#[unsafe(no_mangle)]
pub extern "C" fn zp_check(task: &[u64], run: usize, answer: &mut [u64]) -> usize
    ensures { ChecksRun task.now run answer.old answer.new result }
{
    boundary::zp_check(task, run, answer)
}

// A list of repair numbers applied at once to the task's words.
#[unsafe(no_mangle)]
pub extern "C" fn zp_apply(task: &mut [u64], list: &[u16], answer: &mut [u64]) -> usize
    ensures { AppliesList task.old task.new list.now answer.old answer.new result }
{
    boundary::zp_apply(task, list, answer)
}

// The least repair list into lent room.
#[unsafe(no_mangle)]
pub extern "C" fn zp_solve(task: &[u64], room: &mut [u16], answer: &mut [u64]) -> usize
    ensures { SolvesTask task.now room.old room.new answer.old answer.new result }
{
    boundary::zp_solve(task, room, answer)
}

// A session table opened.
#[unsafe(no_mangle)]
pub extern "C" fn zp_open(task: &[u64], table: &mut [u16], answer: &mut [u64]) -> usize
    ensures { OpensSession task.now table.old table.new answer.old answer.new result }
{
    boundary::zp_open(task, table, answer)
}

// One cell set in the task's words, and its fact's row written afresh. `whose` is the action of a need, an add, a delete or a
// lock, and the run of a start or a goal.
#[unsafe(no_mangle)]
pub extern "C" fn zp_edit(
    task: &mut [u64],
    kind: usize,
    whose: usize,
    fact: usize,
    present: usize,
    table: &mut [u16],
    answer: &mut [u64],
) -> usize
    ensures { EditsSession task.old task.new kind whose fact present table.old table.new
        answer.old answer.new result }
{
    boundary::zp_edit(task, kind, whose, fact, present, table, answer)
}

// The list of a session table into lent room.
#[unsafe(no_mangle)]
pub extern "C" fn zp_list(
    task: &[u64],
    table: &[u16],
    room: &mut [u16],
    answer: &mut [u64],
) -> usize
    ensures { ListsSession task.now table.now room.old room.new
        answer.old answer.new result }
{
    boundary::zp_list(task, table, room, answer)
}

// The listing text of an input into lent room.
#[unsafe(no_mangle)]
pub extern "C" fn zp_listing(input: &[u8], room: &mut [u8], answer: &mut [u64]) -> usize
    ensures { ListsInput input.now room.old room.new answer.old answer.new result }
{
    boundary::zp_listing(input, room, answer)
}
