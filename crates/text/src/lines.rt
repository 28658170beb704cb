// The lines of a listing, one function for each kind of line or group of lines.
ghost use Rattle.std.specs.Prelude.{◌≡◌, ◌+◌, ◌≤◌, length};
ghost use Rattle.table.specs.Refusals.{accepted};
ghost use Rattle.table.specs.Sizes.{max_limit, max_runs};
ghost use Rattle.table.specs.Tasks.{WellFormed};
ghost use Rattle.text.specs.Text.{each, refused_line, steps_of_all, open_line, open_lines, check_in, first_lines, repair_line, answer_lines, text_of};
ghost use Rattle.room.specs.Placing.{last_place, Placed};

use crate::fields::put_line;
use room::put_word;
use runcheck::Checked;
use table::repair::Repair;
use table::{ACCEPTED, RUNS, Reply, Task, TaskReply};

fn refused_line(room: &mut [u8], at: usize, number: usize, place: usize) -> usize
    requires { at + length (refused_line number place) ≤ last_place }
    ensures { Placed room.old room.new at result (refused_line number place) }
{
    put_line(room, at, b"refused", &[number, place])
}

// The steps of all runs (02, request 1).
fn count_steps(task: Task) -> usize
    requires { WellFormed task }
    ensures { result ≡ steps_of_all task.runs }
{
    let mut steps = 0;
    for &count in &task.runs.counts[..task.runs.many] {
        steps += count;
    }
    steps
}

fn open_line(room: &mut [u8], at: usize, found: Checked) -> usize
    requires { at + length (open_line found) ≤ last_place }
    ensures { Placed room.old room.new at result (open_line found) }
{
    put_line(room, at, b"open", &[found.total, found.step, found.fact])
}

// What the check of each run found, in order.
fn open_lines(room: &mut [u8], at: usize, checks: [Checked; RUNS], many: usize) -> usize
    requires many_le_max_runs { many ≤ max_runs }
    requires many_bound { at + length (open_lines (check_in checks) many) ≤ last_place }
    ensures { Placed room.old room.new at result (open_lines (check_in checks) many) }
{
    let mut next = at;
    for &found in &checks[..many] {
        next = open_line(room, next, found);
    }
    next
}

// The sizes, and what the run checks found.
fn first_lines(room: &mut [u8], task: Task, checks: [Checked; RUNS]) -> usize
    requires { WellFormed task }
    ensures { Placed room.old room.new 0 result (first_lines task (check_in checks)) }
{
    let table = &task.table;
    let sizes = [table.facts, table.actions, table.limit, count_steps(task)];
    let next = put_line(room, 0, b"task", &sizes);
    open_lines(room, next, checks, task.runs.many)
}

fn repair_line(room: &mut [u8], at: usize, number: usize) -> usize
    requires { at + length (repair_line number) ≤ last_place }
    ensures { Placed room.old room.new at result (repair_line number) }
{
    let Repair { fact, kind, action } = Repair::of(number);
    let cell = [action, fact];
    match kind {
        Repair::DROP_DELETE => put_line(room, at, b"drop-delete", &cell),
        Repair::ADD_EFFECT => put_line(room, at, b"add-effect", &cell),
        _ => put_line(room, at, b"drop-need", &cell),
    }
}

fn repair_lines(room: &mut [u8], at: usize, list: &[u16]) -> usize
    requires { at + length (each repair_line list.now) ≤ last_place }
    ensures { Placed room.old room.new at result (each repair_line list.now) }
{
    let mut next = at;
    for &number in list {
        next = repair_line(room, next, usize::from(number));
    }
    next
}

fn answer_lines(room: &mut [u8], at: usize, list: &[u16]) -> usize
    requires { at + length (answer_lines list.now) ≤ last_place }
    ensures { Placed room.old room.new at result (answer_lines list.now) }
{
    let next = put_line(room, at, b"set", &[list.len()]);
    let next = repair_lines(room, next, list);
    put_word(room, next, b"end\n")
}

// The whole text, whether the room goes so far or not.
pub fn whole(
    read: TaskReply,
    checks: [Checked; RUNS],
    solved: Reply,
    list: &[u16],
    room: &mut [u8],
) -> usize
    requires well_formed { read.number ≡ accepted → WellFormed read.task }
    requires length_in_bounds { solved.length ≤ length list.now }
    requires list_len_bound { length list.now ≤ max_limit }
    ensures { Placed room.old room.new 0 result
        (text_of read (check_in checks) (record { reply = solved; room = list.now })) }
{
    if read.number != ACCEPTED {
        return refused_line(room, 0, read.number, read.place);
    }
    let next = first_lines(room, read.task, checks);
    if solved.number != ACCEPTED {
        return refused_line(room, next, solved.number, solved.place);
    }
    answer_lines(room, next, &list[..solved.length])
}
