// Answers into lent words, from the first word on: the number and the place first, then what the call gives; and a
// changed task into the words that it was lent in. Past the room a word is only counted, so that none of these functions
// asks anything of the answer's room.
ghost use Rattle.std.specs.Prelude.{[], ◌∷◌, ◌≡◌, ◌+◌, ◌<◌, ◌≤◌, length};
ghost use Rattle.table.specs.Refusals.{accepted};
ghost use Rattle.table.specs.Sizes.{max_runs, all_steps};
ghost use Rattle.room.specs.Placing.{last_place, Placed};
ghost use Rattle.taskwords.specs.Words.{table_out, runs_out, table_words, runs_words, task_words, lent_back};
ghost use Rattle.taskwords.specs.Answers.{Fitting, answer_most, changed_length, reply_length, problem_length, checked_length, record_length, Given, changed_words, checked_words, problem_words, record_words, reply_words, task_answer};

use records::record::RecordReply;
use runcheck::Checked;
use table::{ACCEPTED, ALL_STEPS, RUNS, Reply, Runs, Table, Task, TaskReply};

fn put(answer: &mut [u64], at: usize, word: u64) -> usize
    requires { at < last_place }
    ensures { Placed answer.old answer.new at result (word ∷ []) }
{
    if at < answer.len() {
        answer[at] = word;
        return at + 1;
    }
    at + 1
}

fn put_words(answer: &mut [u64], at: usize, words: &[u64]) -> usize
    requires { at + length words.now ≤ last_place }
    ensures { Placed answer.old answer.new at result words.now }
{
    let mut next = at;
    for &word in words {
        next = put(answer, next, word);
    }
    next
}

fn put_counts(answer: &mut [u64], at: usize, counts: &[usize; RUNS]) -> usize
    requires { at + max_runs ≤ last_place }
    ensures { Placed answer.old answer.new at result counts.now }
{
    let mut next = at;
    for &count in counts {
        next = put(answer, next, count as u64);
    }
    next
}

// How many of the steps the room has words for, from a place on.
fn fitting(room: usize, at: usize) -> usize
    requires { at + all_steps ≤ last_place }
    ensures { Fitting room at result }
{
    if at + ALL_STEPS <= room {
        return ALL_STEPS;
    }
    if at < room { room - at } else { 0 }
}

// The steps of all runs are most of a task's words: which of them fit is asked once and not at each, so that the compiler takes
// several at a time.
fn put_steps(answer: &mut [u64], at: usize, steps: &[u8; ALL_STEPS]) -> usize
    requires { at + all_steps ≤ last_place }
    ensures { Placed answer.old answer.new at result steps.now }
{
    let count = fitting(answer.len(), at);
    for i in 0..count {
        answer[at + i] = u64::from(steps[i]);
    }
    at + ALL_STEPS
}

fn put_table(answer: &mut [u64], at: usize, t: &Table) -> usize
    requires { at + table_words ≤ last_place }
    ensures { Placed answer.old answer.new at result (table_out t.now) }
{
    let next = put_words(
        answer,
        at,
        &[t.facts as u64, t.actions as u64, t.limit as u64],
    );
    let next = put_words(answer, next, &t.needs);
    let next = put_words(answer, next, &t.adds);
    let next = put_words(answer, next, &t.deletes);
    put_words(answer, next, &t.locks)
}

fn put_runs(answer: &mut [u64], at: usize, runs: &Runs) -> usize
    requires { at + runs_words ≤ last_place }
    ensures { Placed answer.old answer.new at result (runs_out runs.now) }
{
    let next = put(answer, at, runs.many as u64);
    let next = put_words(answer, next, &runs.starts);
    let next = put_words(answer, next, &runs.goals);
    let next = put_counts(answer, next, &runs.counts);
    put_steps(answer, next, &runs.steps)
}

// A task lent in and out: the changed task's words where the call was accepted, and otherwise the words as they were.
pub fn give_back(number: usize, changed: Task, task: &mut [u64])
    requires { number ≡ accepted → length task.old ≡ task_words }
    ensures { task.new ≡ lent_back task.old number changed }
{
    if number != ACCEPTED {
        return;
    }
    let next = put_table(task, 0, &changed.table);
    put_runs(task, next, &changed.runs);
}

// Each of these answers with the number again, for the caller to return.
pub fn give_changed(number: usize, place: usize, answer: &mut [u64]) -> usize
    ensures { Given changed_length (changed_words number place) answer.old answer.new result }
{
    put_words(answer, 0, &[number as u64, place as u64]);
    number
}

pub fn give_task(found: TaskReply, answer: &mut [u64]) -> usize
    ensures { Given answer_most (task_answer found.number found.place found.task) answer.old answer.new result }
{
    let next = put_words(answer, 0, &[found.number as u64, found.place as u64]);
    let next = put_table(answer, next, &found.task.table);
    put_runs(answer, next, &found.task.runs);
    found.number
}

pub fn give_reply(reply: Reply, answer: &mut [u64]) -> usize
    ensures { Given reply_length (reply_words reply) answer.old answer.new result }
{
    let words = [reply.number as u64, reply.place as u64, reply.length as u64];
    put_words(answer, 0, &words);
    reply.number
}

pub fn give_problem(number: usize, place: usize, start: u64, goal: u64, answer: &mut [u64]) -> usize
    ensures { Given problem_length (problem_words number place start goal) answer.old answer.new result }
{
    put_words(answer, 0, &[number as u64, place as u64, start, goal]);
    number
}

pub fn give_checked(found: Checked, answer: &mut [u64]) -> usize
    ensures { Given checked_length (checked_words found) answer.old answer.new result }
{
    let words = [
        found.number as u64,
        found.place as u64,
        found.total as u64,
        found.step as u64,
        found.fact as u64,
    ];
    put_words(answer, 0, &words);
    found.number
}

pub fn give_record(found: RecordReply, answer: &mut [u64]) -> usize
    ensures { Given record_length (record_words found) answer.old answer.new result }
{
    let words = [
        found.number as u64,
        found.place as u64,
        found.kind as u64,
        found.start as u64,
        found.length as u64,
        found.next as u64,
    ];
    put_words(answer, 0, &words);
    found.number
}
