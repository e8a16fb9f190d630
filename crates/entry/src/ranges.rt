// The ranges of an entry's numbers, by kind.
ghost use Rattle.std.specs.Prelude.{◌≡◌, get_or, map};
ghost use Rattle.rules.specs.Book.{kind_at, within, anything};
ghost use Rattle.entry.specs.Paper.{range_paper};

use crate::{REDUCED, SEQUENTIAL, STAGED};

// The least and the most that each number of an entry may be, in order; past them, whatever fits.
fn ranges_of(kind: usize) -> &'static [(u16, u16)]
    ensures { map range_paper result.now ≡ (kind_at kind).ranges }
{
    match kind {
        // letter, column, n and Ac
        REDUCED => &[(0, 15), (0, 25), (1, 3150), (0, 65534)],
        // severity, letter, column and stages
        STAGED => &[(0, 2), (0, 15), (0, 25), (2, 7)],
        // severity, letter, column, hA, hR, g and nt
        SEQUENTIAL => &[
            (0, 2),
            (0, 15),
            (0, 15),
            (1, 65535),
            (1, 65535),
            (1, 60000),
            (1, 3150),
        ],
        // severity, letter, column, n and K
        _ => &[(0, 2), (0, 15), (0, 15), (2, 50), (1, 4000)],
    }
}

// Is x within the range of the number at place i of an entry?
pub(crate) fn fits(kind: usize, i: usize, x: u16) -> bool
    ensures { result ≡ within (get_or (kind_at kind).ranges i anything) x }
{
    match ranges_of(kind).get(i) {
        Some(&(low, high)) => (low..=high).contains(&x),
        None => true,
    }
}
