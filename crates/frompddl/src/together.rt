// The task that the texts and the task file behind them say together.
ghost use Rattle.table.specs.Outcomes.{read_of};
ghost use Rattle.frompddl.specs.Together.{PutsTogether};

use crate::gather::gather;
use crate::split::{file_start, text_end};
use pddlreader::read_domain;
use table::refusals::{Refusal, Why};
use table::{Task, no_task};

// The first refusal in the order of the input: of the domain text, of the problem texts, of the task file; then 12, where there is not one run
// for each run of the task file. Where the task file is refused, what stands beside the texts is a task of zeros.
pub(crate) fn put_together(s: &[u8]) -> Result<Task, Refusal>
    ensures { PutsTogether s.now (read_of result) }
{
    let start = file_start(s);
    let file = taskfile::read(&s[start..]);
    let beside = file.unwrap_or(no_task());
    let first = text_end(s, 0);
    let domain = read_domain(&s[..first], beside.table.limit)?;
    let runs = gather(s, first, beside, domain)?;
    if let Err(refusal) = file {
        return Err(refusal.why.at(start + refusal.place));
    }
    let many = beside.runs.many;
    if (runs.texts == many) & (runs.task.runs.many == many) {
        Ok(runs.task)
    } else {
        Err(Why::NotWellFormed.at(0))
    }
}
