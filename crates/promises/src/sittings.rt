// A test of 02's request 7: a list made in two sittings, and this one runs. Nothing outside calls it.
ghost use Rattle.table.specs.Outcomes.{made_of};
ghost use Rattle.promises.specs.TwoSittings.{MadeInTwo};

use table::Task;
use table::refusals::Returned;

// Applies a list in the morning, and another in the afternoon to the task that came out, accepted or refused.
pub(crate) fn two_sittings(t: Task, morning: &[u16], afternoon: &[u16]) -> Result<Task, Returned>
    ensures { MadeInTwo t morning.now afternoon.now (made_of result) }
{
    let made = apply::apply(t, morning).unwrap_or_else(|returned| returned.task);
    apply::apply(made, afternoon)
}
