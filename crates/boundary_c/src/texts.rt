// The calls on PDDL texts.
ghost use Rattle.boundary.specs.BoundaryCalls.{WritesDomain, WritesProblem, HandsDomain, HandsProblem, AddsRun};

// The task's domain text into lent room.
#[unsafe(no_mangle)]
pub extern "C" fn zp_write_domain(task: &[u64], room: &mut [u8], answer: &mut [u64]) -> usize
    ensures { WritesDomain task.now room.old room.new answer.old answer.new result }
{
    boundary::texts::zp_write_domain(task, room, answer)
}

// The problem text of the run named into lent room.
#[unsafe(no_mangle)]
pub extern "C" fn zp_write_problem(
    task: &[u64],
    run: usize,
    room: &mut [u8],
    answer: &mut [u64],
) -> usize
    ensures { WritesProblem task.now run room.old room.new answer.old answer.new result }
{
    boundary::texts::zp_write_problem(task, run, room, answer)
}

// The table of a domain text, with the limit that is passed beside it, as a task that has no run yet.
#[unsafe(no_mangle)]
pub extern "C" fn zp_read_domain(text: &[u8], limit: usize, answer: &mut [u64]) -> usize
    ensures { HandsDomain text.now limit answer.old answer.new result }
{
    boundary::texts::zp_read_domain(text, limit, answer)
}

// The start and the goal of a problem text over so many facts.
#[unsafe(no_mangle)]
pub extern "C" fn zp_read_problem(text: &[u8], facts: usize, answer: &mut [u64]) -> usize
    ensures { HandsProblem text.now facts answer.old answer.new result }
{
    boundary::texts::zp_read_problem(text, facts, answer)
}

// One run more, after those that the task has, in the task's words.
#[unsafe(no_mangle)]
pub extern "C" fn zp_add_run(
    task: &mut [u64],
    start: u64,
    goal: u64,
    steps: &[u8],
    answer: &mut [u64],
) -> usize
    ensures { AddsRun task.old task.new start goal steps.now answer.old answer.new result }
{
    boundary::texts::zp_add_run(task, start, goal, steps, answer)
}
