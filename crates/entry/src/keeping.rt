// The rules that a number of an entry has with those before it. Tests are joined by & and |: each number of a book
// passes here, and they take no branch.
ghost use Rattle.std.specs.Prelude.{◌≡◌, ◌+◌, ◌<◌, cond, eqb, ltb, length, get_or, take, is_none, unwrap_or};
ghost use Rattle.rules.specs.Numbers.{numbers_of};
ghost use Rattle.rules.specs.Book.{kind_at, within, ◌to◌, ac_keeps, re_keeps, staged_number, staged_rule};
ghost use Rattle.rules.specs.Book.{at_fits, sequential_rule};

use crate::{SEQUENTIAL, STAGED};
use numbers::number;

// As Ac, a mark: no acceptance at that stage.
const MARK: u16 = u16::MAX;

// A stage has 1 to 2,000 items.
fn size_keeps(size: u16) -> bool
    ensures { result ≡ within (1 to 2000) size }
{
    (1..=2000).contains(&size)
}

// Ac after that of the stage before, if any: one that is a number does not fall; a mark stands only before numbers, and
// not at the last stage.
fn ac_keeps(before: Option<u16>, last: bool, ac: u16) -> bool
    ensures { result ≡ ac_keeps (is_none before) last (unwrap_or before 0) ac }
{
    let before = before.unwrap_or(MARK);
    if ac == MARK {
        !last & (before == MARK)
    } else {
        (before == MARK) | (before <= ac)
    }
}

// Re is over Ac, at the last stage by one.
fn re_over(last: bool, ac: u16, re: u16) -> bool
    ensures { result ≡ cond last (eqb re (ac + 1)) (ltb ac re) }
{
    if last {
        re as u32 == ac as u32 + 1
    } else {
        ac < re
    }
}

// Re after that of the stage before, if any: it is no mark and does not fall, and is over an Ac that is a number.
fn re_keeps(before: Option<u16>, last: bool, ac: u16, re: u16) -> bool
    ensures { result ≡ re_keeps (is_none before) last (unwrap_or before 0) ac re }
{
    (re != MARK) & ((before.unwrap_or(0) <= re) & ((ac == MARK) | re_over(last, ac, re)))
}

// The number x at place i of an entry of m stages, after the numbers two places and one place before it.
fn staged_number(i: usize, m: u16, two: u16, one: u16, x: u16) -> bool
    ensures { result ≡ staged_number i m two one x }
{
    let count = m as usize;
    let start = 4 + count;
    if i < start {
        return size_keeps(x);
    }
    let j = i - start;
    let stage = j / 2;
    let before = (stage != 0).then_some(two);
    let last = stage + 1 == count;
    if j % 2 == 0 {
        return ac_keeps(before, last, x);
    }
    re_keeps(before, last, one, x)
}

fn staged_rule(e: &[u8], i: usize, x: u16) -> bool
    requires { i < length (numbers_of e.now) }
    ensures { result ≡ staged_rule (take i (numbers_of e.now)) x }
{
    if i < 4 {
        return true;
    }
    let m = number(e, 3);
    let two = number(e, i - 2);
    let one = number(e, i - 1);
    staged_number(i, m, two, one, x)
}

// floor(g·nt − hA) ≤ At < ceiling(g·nt + hR), without division: both sides in hundred-thousandths.
fn at_fits(ha: u16, hr: u16, g: u16, nt: u16, at: u16) -> bool
    ensures { result ≡ at_fits ha hr g nt at }
{
    let gn = (g as u64) * (nt as u64);
    let low = 100000 * (at as u64);
    (gn < low + 100 * (ha as u64) + 100000) & (low < gn + 100 * (hr as u64))
}

fn sequential_rule(e: &[u8], i: usize, x: u16) -> bool
    requires { i < length (numbers_of e.now) }
    ensures { result ≡ sequential_rule (take i (numbers_of e.now)) x }
{
    if i == 7 {
        let ha = number(e, 3);
        let hr = number(e, 4);
        let g = number(e, 5);
        let nt = number(e, 6);
        return at_fits(ha, hr, g, nt, x);
    }
    true
}

// Does x at place i keep the rules that it has with the entry's numbers before it?
pub(crate) fn keeps_rule(kind: usize, e: &[u8], i: usize, x: u16) -> bool
    requires { i < length (numbers_of e.now) }
    ensures { result ≡ (kind_at kind).rule (take i (numbers_of e.now)) x }
{
    match kind {
        STAGED => staged_rule(e, i, x),
        SEQUENTIAL => sequential_rule(e, i, x),
        _ => true,
    }
}
