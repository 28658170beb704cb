// Copying numbers from one list into another: a row into the session table, a row's repairs into lent room.
ghost use Rattle.std.specs.Prelude.{◌≡◌, ◌+◌, ◌≤◌, length, drop};
ghost use Rattle.rows.specs.Copies.{pasted};

// The numbers of `from` that stand from `start` on, as many as `count`, into `to` from place `at` on. Not by `copy_from_slice`: that is a
// call of `memmove`, which the archive for C does without (docs/BOUNDARY.md), and one for each row without repairs too.
pub fn copy(from: &[u16], start: usize, count: usize, to: &mut [u16], at: usize)
    requires count_in_bounds { start + count ≤ length from.now }
    requires count_in_bounds_2 { at + count ≤ length to.old }
    ensures { to.new ≡ pasted to.old at (drop start from.now) count }
{
    for (i, place) in to[at..at + count].iter_mut().enumerate() {
        *place = from[start + i];
    }
}
