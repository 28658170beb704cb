// Sets of facts as u64 masks (01, "What to write where"): total functions, each equal to its definition in specs/Sets.antt.

#![tactic(auto)]

ghost use Rattle.std.specs.Prelude.{◌≡◌};
ghost use Rattle.facts.specs.Sets as sets;

// How many facts a mask has room for (01, "Sizes").
pub const WIDTH: usize = 64;

// The code's width is the definitions' width.
pub fn width() -> usize
    ensures { result ≡ sets.width }
{
    WIDTH
}

// The facts of a or b.
pub fn join(a: u64, b: u64) -> u64
    ensures { result ≡ sets.joined a b }
{
    a | b
}

// The facts of a and b.
pub fn overlap(a: u64, b: u64) -> u64
    ensures { result ≡ sets.shared a b }
{
    a & b
}

// The facts of a that are not in b.
pub fn remove(a: u64, b: u64) -> u64
    ensures { result ≡ sets.removed a b }
{
    a & !b
}

// The fact f alone; the empty set where a mask has no room for f, since a shift by the width or more is none.
pub fn single(f: usize) -> u64
    ensures { result ≡ sets.only f }
{
    if f < WIDTH { 1 << f } else { 0 }
}

// Whether f is in m.
pub fn contains(m: u64, f: usize) -> bool
    ensures { result ≡ sets.has m f }
{
    f < WIDTH && (m >> f) % 2 == 1
}

// m with f put in; m where a mask has no room for f.
pub fn with_fact(m: u64, f: usize) -> u64
    ensures { result ≡ sets.joined m (sets.only f) }
{
    join(m, single(f))
}

// m with f taken out.
pub fn without_fact(m: u64, f: usize) -> u64
    ensures { result ≡ sets.removed m (sets.only f) }
{
    remove(m, single(f))
}

// All facts below n: one less than a power of two, and at the width, where the word has no such power, the full mask
// (01, "Errors that look right").
pub fn below_mask(n: usize) -> u64
    ensures { result ≡ sets.below n }
{
    if n < WIDTH { single(n) - 1 } else { u64::MAX }
}

// Whether no fact at or above n is in m.
pub fn is_within(m: u64, n: usize) -> bool
    ensures { result ≡ sets.within m n }
{
    m <= below_mask(n)
}

// How many facts are in m.
pub fn count(m: u64) -> usize
    ensures { result ≡ sets.count m }
{
    m.count_ones() as usize
}

// The lowest fact of m; the width where m is empty.
pub fn lowest(m: u64) -> usize
    ensures { result ≡ sets.lowest m }
{
    m.trailing_zeros() as usize
}

// The facts of m in turn, from the lowest on.
pub fn each(m: u64) -> Facts
    ensures { result ≡ record { rest = m } }
{
    Facts { rest: m }
}

// The facts of a mask that are still to come.
#[derive(Clone, Copy, Drop)]
pub struct Facts {
    rest: u64,
}

impl Iterator for Facts {
    ghost use Rattle.std.specs.Iterator.{at_most};
    ghost use Rattle.facts.specs.Sets.{count};
    ghost use Rattle.facts.specs.Turns.{Turn};

    type Item = usize;

    ghost next_gives = { Turn };

    ghost remaining = { λ facts. at_most (count facts.rest) };

    fn next(&mut self) -> Option<usize> {
        if self.rest == 0 {
            return None;
        }
        let f = lowest(self.rest);
        self.rest = without_fact(self.rest, f);
        Some(f)
    }
}
