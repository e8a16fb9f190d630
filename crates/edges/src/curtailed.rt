// Document 02, T-04: counting stops when the lot is lost, and no sooner than at n where it is not.
use super::answers::Lot;
use super::stages::scored;
use super::{NO_BOOK, say, say_judged};
use closing::Offered;
use plans::Asked;
use std::io;

// A lot at level II. Of 1,000 at column 10 its plan has 80 items and Ac 2, of 50 at column 15 it has 8 items and Ac 2.
fn judged(
    rt: &impl Print,
    case: &str,
    severity: u32,
    size: u32,
    column: u32,
    sample: &[u8],
) -> io::Result<()> {
    let lot = Asked {
        severity,
        size,
        level: 5,
        column,
    };
    say_judged(rt, case, sentencing::judge_curtailed(lot, &NO_BOOK, sample))
}

fn seals(rt: &impl Print) -> io::Result<()> {
    let bad = *b"\0\0\0\0\0\0\0\0\0\0\0\0\0\0\x01\0\x01\0\x01\0";
    judged(rt, "the third bad seal of 80: ", 0, 1000, 10, &bad)?;
    judged(rt, "the second, tightened: ", 1, 1000, 10, &bad[..18])?;
    judged(rt, "reduced: ", 2, 1000, 10, &bad)?;
    judged(rt, "stopped: ", 3, 1000, 10, &bad)?;
    let lot = Offered {
        again: false,
        size: 1000,
        level: 5,
        column: 10,
    };
    let closed = sentencing::close_curtailed(scored(5, false), lot, &NO_BOOK, &bad);
    say(rt, "closed from score 5: ", closed.map(Lot))
}

fn ends(rt: &impl Print) -> io::Result<()> {
    let lost = [0u8, 0, 1, 0, 1, 0, 1, 0, 2, 0];
    judged(rt, "the third bad of 8, at 4: ", 0, 50, 15, &lost[..8])?;
    judged(rt, "and an item more: ", 0, 50, 15, &lost)?;
    judged(rt, "and half an item: ", 0, 50, 15, &lost[..9])?;
    judged(rt, "one bad fewer: ", 0, 50, 15, &lost[..6])?;
    judged(rt, "an item of 2 before: ", 0, 50, 15, &lost[6..])?;
    let last = [1u8, 0, 1, 0, 0, 0, 0, 0, 0, 0, 0, 0, 0, 0, 1, 0];
    judged(rt, "the third bad at the last: ", 0, 50, 15, &last)?;
    let two = [1u8, 0, 1, 0, 0, 0, 0, 0, 0, 0, 0, 0, 0, 0, 0, 0];
    judged(rt, "two bad of 8: ", 0, 50, 15, &two)?;
    judged(rt, "two bad of 7: ", 0, 50, 15, &two[..14])
}

fn other_plans(rt: &impl Print) -> io::Result<()> {
    let many = [255u8, 255];
    judged(
        rt,
        "65,535 nonconformities on the first of 2: ",
        0,
        8,
        21,
        &many,
    )?;
    let clean = [0u8; 20];
    judged(rt, "a lot of 10, II, 0.10, clean: ", 0, 10, 5, &clean)?;
    judged(rt, "and nine of it: ", 0, 10, 5, &clean[..18])
}

pub(crate) fn all(rt: &impl Print) -> io::Result<()> {
    seals(rt)?;
    ends(rt)?;
    other_plans(rt)
}
