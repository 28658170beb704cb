// The number of a repair and back (document 01, "The model and its run": "The number of a repair is 96f + 32k + a").
ghost use Rattle.std.specs.Prelude.{◌≡◌};
ghost use Rattle.table.specs.Repairs.{numbered, fact_of, kind_of, action_of};

use crate::{ACTIONS, FACTS, UNUSED};

// One repair: the fact, the kind of repair, and the action whose cell it changes.
#[derive(Clone, Copy)]
pub struct Repair {
    pub fact: usize,
    pub kind: usize,
    pub action: usize,
}

impl Repair {
    // Strides of the number: all kinds of one fact, all actions of one kind.
    pub const PER_FACT: usize = 96;

    pub const PER_KIND: usize = 32;
    // The greatest number of a repair.
    pub const LAST: usize = 6143;
    // The kinds, and how many there are.
    pub const DROP_DELETE: usize = 0;

    pub const ADD_EFFECT: usize = 1;

    pub const DROP_NEED: usize = 2;

    pub const KINDS: usize = 3;

    pub fn new(fact: usize, kind: usize, action: usize) -> Repair
        ensures { result ≡ record { fact = fact; kind = kind; action = action } }
    {
        Repair { fact, kind, action }
    }

    // A repair with a part outside has the number that no task permits.
    #[tactic(auto, unfolding(crate::specs::Repairs::numbered))]
    pub fn number(self) -> usize
        ensures { result ≡ numbered self.fact self.kind self.action }
    {
        let Repair { fact, kind, action } = self;
        if (fact < FACTS) & (kind < Repair::KINDS) & (action < ACTIONS) {
            Repair::PER_FACT * fact + Repair::PER_KIND * kind + action
        } else {
            UNUSED as usize
        }
    }

    pub fn of(number: usize) -> Repair
        ensures { result ≡ record { fact = fact_of number; kind = kind_of number; action = action_of number } }
    {
        let within = number % Repair::PER_FACT;
        Repair {
            fact: number / Repair::PER_FACT,
            kind: within / Repair::PER_KIND,
            action: within % Repair::PER_KIND,
        }
    }
}
