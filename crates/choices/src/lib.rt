// Sets of repairs of one fact: one repair more, two as one, what two share, one without another, and a set's codes in turn.

#![tactic(auto)]

ghost use Rattle.std.specs.Prelude.{◌≡◌, ℕ, ◌-◌, ◌*◌, ◌<◌, length};
ghost use Rattle.table.specs.Sizes.{kinds, per_kind};
ghost use Rattle.choices.specs.Choices.{code_of, list_of};
ghost use Rattle.choices.specs.Choices as choices;
ghost use Rattle.facts.specs.Sets.{sum_bits};
ghost use Rattle.choices.specs.Trying.{with_repair, both_of, shared_by, without_those, CodesBelow, NextAction, FirstIn, Sharing};

use facts::{below_mask, count, join, lowest, overlap, remove, with_fact};
use table::repair::Repair;

// A set of repairs of one fact: the actions whose delete is dropped, that get the effect, whose need is dropped.
#[derive(Clone, Copy)]
pub struct Choice {
    pub deletes: u64,
    pub adds: u64,
    pub needs: u64,
}

// A repair of a fact is known by its code: what its number has beside the fact's share.
fn code_of(kind: usize, action: usize) -> usize
    requires kind_lt_kinds { kind < kinds }
    requires action_lt_per_kind { action < per_kind }
    ensures { result ≡ code_of kind action }
{
    Repair::PER_KIND * kind + action
}

// How many actions are in the set. A mask's higher places name no action.
fn count_actions(m: u64) -> usize
    ensures { result ≡ sum_bits per_kind m }
{
    count(overlap(m, below_mask(Repair::PER_KIND)))
}

// How many of a kind's actions a search from the code `from` on passes.
fn passed(kind: usize, from: usize) -> usize
    requires { kind < kinds }
    ensures { result ≡ from - per_kind * kind }
{
    from.saturating_sub(code_of(kind, 0))
}

// The first action of the set from `skip` on; PER_KIND or more where there is none.
fn next_action(m: u64, skip: usize) -> usize
    ensures { NextAction m skip result }
{
    lowest(remove(m, below_mask(skip)))
}

impl Choice {
    pub fn nothing() -> Choice
        ensures { result ≡ choices.nothing }
    {
        Choice {
            deletes: 0,
            adds: 0,
            needs: 0,
        }
    }

    // The repairs whose codes are below one.
    pub fn below(code: usize) -> Choice
        ensures { CodesBelow code result }
    {
        let deletes = passed(Repair::DROP_DELETE, code);
        let adds = passed(Repair::ADD_EFFECT, code);
        let needs = passed(Repair::DROP_NEED, code);
        Choice {
            deletes: below_mask(deletes),
            adds: below_mask(adds),
            needs: below_mask(needs),
        }
    }

    pub fn with_repair(self, code: usize) -> Choice
        ensures { result ≡ with_repair self code }
    {
        let kind = code / Repair::PER_KIND;
        let action = code % Repair::PER_KIND;
        match kind {
            Repair::DROP_DELETE => Choice {
                deletes: with_fact(self.deletes, action),
                ..self
            },
            Repair::ADD_EFFECT => Choice {
                adds: with_fact(self.adds, action),
                ..self
            },
            _ => Choice {
                needs: with_fact(self.needs, action),
                ..self
            },
        }
    }

    // The repairs that are in one of the sets or in both.
    pub fn joined(self, other: Choice) -> Choice
        ensures { result ≡ both_of self other }
    {
        Choice {
            deletes: join(self.deletes, other.deletes),
            adds: join(self.adds, other.adds),
            needs: join(self.needs, other.needs),
        }
    }

    // The repairs of this set that are not in the other.
    pub fn without(self, other: Choice) -> Choice
        ensures { result ≡ without_those self other }
    {
        Choice {
            deletes: remove(self.deletes, other.deletes),
            adds: remove(self.adds, other.adds),
            needs: remove(self.needs, other.needs),
        }
    }

    // The repairs that are in both sets.
    pub fn shared(self, other: Choice) -> Choice
        ensures { result ≡ shared_by self other }
    {
        Choice {
            deletes: overlap(self.deletes, other.deletes),
            adds: overlap(self.adds, other.adds),
            needs: overlap(self.needs, other.needs),
        }
    }

    // How many repairs the set has: the length of its list, whichever fact it is of.
    pub fn size(self) -> usize
        ensures { (f : ℕ) → result ≡ length (list_of f self) }
    {
        count_actions(self.deletes) + count_actions(self.adds) + count_actions(self.needs)
    }

    // The first code of the set at or after one.
    pub fn next_in(self, from: usize) -> Option<usize>
        ensures { FirstIn self from result }
    {
        let deletes = next_action(self.deletes, from);
        if deletes < Repair::PER_KIND {
            return Some(deletes);
        }
        let adds = next_action(self.adds, passed(Repair::ADD_EFFECT, from));
        if adds < Repair::PER_KIND {
            return Some(code_of(Repair::ADD_EFFECT, adds));
        }
        let needs = next_action(self.needs, passed(Repair::DROP_NEED, from));
        if needs < Repair::PER_KIND {
            return Some(code_of(Repair::DROP_NEED, needs));
        }
        None
    }

    // Have the sets a repair in common?
    pub fn shares(self, other: Choice) -> bool
        ensures { Sharing self other result }
    {
        self.shared(other).next_in(0).is_some()
    }

    // The set's codes in turn.
    pub fn codes(self) -> Codes
        ensures { result ≡ record { set = self; from = 0 } }
    {
        Codes { set: self, from: 0 }
    }
}

// The codes of a set from one on, in turn.
#[derive(Clone, Copy, Drop)]
pub struct Codes {
    set: Choice,
    from: usize,
}

impl Iterator for Codes {
    ghost use Rattle.std.specs.Iterator.{at_most};
    ghost use Rattle.std.specs.Prelude.{◌-◌};
    ghost use Rattle.table.specs.Sizes.{per_fact};
    ghost use Rattle.choices.specs.Turns.{Turn};

    type Item = usize;

    ghost next_gives = { Turn };

    ghost remaining = { λ codes. at_most (per_fact - codes.from) };

    fn next(&mut self) -> Option<usize> {
        let code = self.set.next_in(self.from)?;
        self.from = code + 1;
        Some(code)
    }
}
