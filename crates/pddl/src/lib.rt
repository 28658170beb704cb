// The table and its runs as PDDL (02, request 4): what the texts are and what reading gives (specs/), and the theorems (proofs/). The
// readers stand in `pddlreader`, the writers in `pddlwriter`; here is what reading a problem text answers, and its numbers.

#![tactic(auto)]

ghost use Rattle.std.specs.Prelude.{◌≡◌};
ghost use Rattle.pddl.specs.Readings.{problem_told};

use table::ACCEPTED;
use table::refusals::Refusal;

// What a problem text says: the facts that the run starts with and those it has to end with.
#[derive(Clone, Copy, PartialEq, Eq, Debug)]
pub struct RunEnds {
    pub start: u64,
    pub goal: u64,
}

// What reading a problem text answers in 01's numbers, as it crosses to C: 0, 0 and the run's start and goal, or the refusal's number
// and place and zeros.
#[derive(Clone, Copy)]
pub struct ProblemReply {
    pub number: usize,
    pub place: usize,
    pub start: u64,
    pub goal: u64,
}

impl From<Result<RunEnds, Refusal>> for ProblemReply {
    ghost from_gives = { λ read y. y ≡ problem_told read };

    fn from(read: Result<RunEnds, Refusal>) -> ProblemReply {
        match read {
            Ok(problem) => ProblemReply {
                number: ACCEPTED,
                place: 0,
                start: problem.start,
                goal: problem.goal,
            },
            Err(refusal) => ProblemReply {
                number: refusal.why.number(),
                place: refusal.place,
                start: 0,
                goal: 0,
            },
        }
    }
}
