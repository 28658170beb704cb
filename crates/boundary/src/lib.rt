// The boundary: every public call as an `extern "C"` function on numbers and slices, for callers in C and in Rust
// (docs/BOUNDARY.md). A task crosses as 668 words, an answer as words in lent room; where that room is too short nothing
// is called, and the answer is 255. A task that a call changes is lent in and out. The archive that such a caller links is made of
// `boundary_c`, which has each function once more: no library exports any.

#![tactic(auto, using(taskwords::proofs::AnsweringLaws::answers_short))]

pub mod texts;

ghost use Rattle.boundary.specs.BoundaryCalls.{HandsRecord, ReadsTask, WritesTask, ChecksRun, AppliesList, SolvesTask, OpensSession, EditsSession, ListsSession, ListsInput};

use apply::apply;
use listing::listing;
use records::record::{RecordReply, record_at};
use runcheck::{Checked, check_run};
use session::edits::edit_of;
use session::{edit, list, open};
use solve::solve;
use table::{Reply, TaskReply};
use taskfile::read;
use taskwords::answer::{
    give_back, give_changed, give_checked, give_record, give_reply, give_task,
};
use taskwords::words::{TASK_WORDS, task_in};
use taskwriter::write;

// The boundary's own number: the answer's room is too short, and nothing was called.
const ANSWER_TOO_SHORT: usize = 255;

// How many words each answer has.
const CHANGED_WORDS: usize = 2;

const REPLY_WORDS: usize = 3;

const PROBLEM_WORDS: usize = 4;

const CHECKED_WORDS: usize = 5;

const RECORD_WORDS: usize = 6;

const TASK_ANSWER_WORDS: usize = TASK_WORDS + 2;

// The record at a place of the file; its body is `length` bytes of the file from `start` on.
#[unsafe(no_mangle)]
pub extern "C" fn zp_record(file: &[u8], at: usize, answer: &mut [u64]) -> usize
    ensures { HandsRecord file.now at answer.old answer.new result }
{
    if answer.len() < RECORD_WORDS {
        return ANSWER_TOO_SHORT;
    }
    let found = RecordReply::from(record_at(file, at));
    give_record(found, answer)
}

// The task of a file.
#[unsafe(no_mangle)]
pub extern "C" fn zp_read(file: &[u8], answer: &mut [u64]) -> usize
    ensures { ReadsTask file.now answer.old answer.new result }
{
    if answer.len() < TASK_ANSWER_WORDS {
        return ANSWER_TOO_SHORT;
    }
    give_task(TaskReply::from(read(file)), answer)
}

// The task's file into lent room.
#[unsafe(no_mangle)]
pub extern "C" fn zp_write(task: &[u64], room: &mut [u8], answer: &mut [u64]) -> usize
    ensures { WritesTask task.now room.old room.new answer.old answer.new result }
{
    if answer.len() < REPLY_WORDS {
        return ANSWER_TOO_SHORT;
    }
    let t = task_in(task);
    let reply = Reply::from(write(t, room));
    give_reply(reply, answer)
}

// The run check of the run named.
#[unsafe(no_mangle)]
pub extern "C" fn zp_check(task: &[u64], run: usize, answer: &mut [u64]) -> usize
    ensures { ChecksRun task.now run answer.old answer.new result }
{
    if answer.len() < CHECKED_WORDS {
        return ANSWER_TOO_SHORT;
    }
    let t = task_in(task);
    let found = Checked::from(check_run(t, run));
    give_checked(found, answer)
}

// A list of repair numbers applied at once to the task's words.
#[unsafe(no_mangle)]
pub extern "C" fn zp_apply(task: &mut [u64], list: &[u16], answer: &mut [u64]) -> usize
    ensures { AppliesList task.old task.new list.now answer.old answer.new result }
{
    if answer.len() < CHANGED_WORDS {
        return ANSWER_TOO_SHORT;
    }
    let t = task_in(task);
    let TaskReply {
        number,
        place,
        task: repaired,
    } = TaskReply::from(apply(t, list));
    give_back(number, repaired, task);
    give_changed(number, place, answer)
}

// The least repair list into lent room.
#[unsafe(no_mangle)]
pub extern "C" fn zp_solve(task: &[u64], room: &mut [u16], answer: &mut [u64]) -> usize
    ensures { SolvesTask task.now room.old room.new answer.old answer.new result }
{
    if answer.len() < REPLY_WORDS {
        return ANSWER_TOO_SHORT;
    }
    let t = task_in(task);
    let reply = Reply::from(solve(t, room));
    give_reply(reply, answer)
}

// A session table opened.
#[unsafe(no_mangle)]
pub extern "C" fn zp_open(task: &[u64], table: &mut [u16], answer: &mut [u64]) -> usize
    ensures { OpensSession task.now table.old table.new answer.old answer.new result }
{
    if answer.len() < REPLY_WORDS {
        return ANSWER_TOO_SHORT;
    }
    let t = task_in(task);
    let reply = Reply::from(open(t, table));
    give_reply(reply, answer)
}

// One cell set in the task's words, and its fact's row written afresh. `whose` is the action of a need, an add, a delete or a lock (02,
// request 6), and the run of a start or a goal.
#[unsafe(no_mangle)]
pub extern "C" fn zp_edit(
    task: &mut [u64],
    kind: usize,
    whose: usize,
    fact: usize,
    present: usize,
    table: &mut [u16],
    answer: &mut [u64],
) -> usize
    ensures { EditsSession task.old task.new kind whose fact present table.old table.new
        answer.old answer.new result }
{
    if answer.len() < CHANGED_WORDS {
        return ANSWER_TOO_SHORT;
    }
    let t = task_in(task);
    let e = edit_of(kind, whose, fact, present);
    let TaskReply {
        number,
        place,
        task: edited,
    } = TaskReply::from(edit(t, table, e));
    give_back(number, edited, task);
    give_changed(number, place, answer)
}

// The list of a session table into lent room.
#[unsafe(no_mangle)]
pub extern "C" fn zp_list(
    task: &[u64],
    table: &[u16],
    room: &mut [u16],
    answer: &mut [u64],
) -> usize
    ensures { ListsSession task.now table.now room.old room.new
        answer.old answer.new result }
{
    if answer.len() < REPLY_WORDS {
        return ANSWER_TOO_SHORT;
    }
    let t = task_in(task);
    let reply = Reply::from(list(t, table, room));
    give_reply(reply, answer)
}

// The listing text of an input into lent room.
#[unsafe(no_mangle)]
pub extern "C" fn zp_listing(input: &[u8], room: &mut [u8], answer: &mut [u64]) -> usize
    ensures { ListsInput input.now room.old room.new answer.old answer.new result }
{
    if answer.len() < REPLY_WORDS {
        return ANSWER_TOO_SHORT;
    }
    let reply = Reply::from(listing(input, room));
    give_reply(reply, answer)
}
