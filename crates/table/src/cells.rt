// One cell made present or absent, in a set and in the set of one action or of one run: what reading a file, applying a list
// and editing have in common.
ghost use Rattle.std.specs.Prelude.{◌≡◌};
ghost use Rattle.table.specs.Setting.{set_fact, set_in};

// The set with one fact present or absent; a fact that a mask has no room for changes nothing.
pub fn set_fact(m: u64, fact: usize, present: bool) -> u64
    ensures { result ≡ set_fact m fact present }
{
    if present {
        facts::with_fact(m, fact)
    } else {
        facts::without_fact(m, fact)
    }
}

// The same in the set of one action, or of one run; one that is none changes nothing.
pub fn set_in<const N: usize>(sets: [u64; N], place: usize, fact: usize, present: bool) -> [u64; N]
    ensures { result ≡ set_in sets.entry place fact present }
{
    let mut sets = sets;
    if place < N {
        sets[place] = set_fact(sets[place], fact, present);
    }
    sets
}
