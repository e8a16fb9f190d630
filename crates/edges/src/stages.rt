// Document 02, T-02: what a staged lot does to the score, by the stage that accepts it and how many there are.
use super::answers::Lot;
use super::{BOOK, five_totals, offered_of_l, say};
use closing::Offered;
use std::io;
use supply::Supply;

// Under normal inspection and letter B: at column 10 two stages of one item, at column 11 five. The Ac of a stage is
// how many stages stand before it: a bad item at each of those and then a good one are accepted there.
const STAGES: [u8; 66] =
    *b"\0\0\x02\0\0\0\x01\0\x0a\0\x02\0\x01\0\x01\0\0\0\x02\0\x01\0\x02\0\0\0\x01\0\x0b\0\x05\0\x01\0\x01\0\
    \x01\0\x01\0\x01\0\0\0\x05\0\x01\0\x05\0\x02\0\x05\0\x03\0\x05\0\x04\0\x05\0\0\0\0\0";

// A record under normal inspection.
pub(crate) fn scored(score: u8, standing: bool) -> Supply {
    let mut old = supply::fresh(severity::ours());
    old.switching.score = score;
    old.switching.steady = standing;
    old.switching.permission = standing;
    old
}

// A lot of letter B, from a record with this score; resubmitted, and with both orders standing, where it says so.
fn closed(
    rt: &impl Print,
    case: &str,
    column: u32,
    sample: &[u8],
    again: bool,
    score: u8,
    standing: bool,
) -> io::Result<()> {
    let lot = Offered {
        again,
        size: 8,
        level: 6,
        column,
    };
    let closed = sentencing::close_staged(scored(score, standing), lot, &STAGES, sample);
    say(rt, case, closed.map(Lot))
}

fn two_stages(rt: &impl Print) -> io::Result<()> {
    let first = [0u8, 0];
    closed(
        rt,
        "two stages, at the first: ",
        10,
        &first,
        false,
        5,
        false,
    )?;
    let second = [1u8, 0, 0, 0];
    closed(rt, "at the second: ", 10, &second, false, 5, false)
}

fn five_stages(rt: &impl Print) -> io::Result<()> {
    let third = [1u8, 0, 1, 0, 0, 0];
    closed(
        rt,
        "five stages, at the third: ",
        11,
        &third,
        false,
        5,
        false,
    )?;
    closed(rt, "resubmitted: ", 11, &third, true, 5, false)?;
    closed(
        rt,
        "from 27, nothing declared: ",
        11,
        &third,
        false,
        27,
        false,
    )?;
    closed(
        rt,
        "from 27, steady and permission: ",
        11,
        &third,
        false,
        27,
        true,
    )?;
    let fourth = [1u8, 0, 1, 0, 1, 0, 0, 0];
    closed(rt, "at the fourth: ", 11, &fourth, false, 5, false)?;
    closed(
        rt,
        "from 27, steady and permission: ",
        11,
        &fourth,
        false,
        27,
        true,
    )
}

// The five stages of 3 of document 01.
fn closed_of_l(rt: &impl Print, case: &str, sample: &[u8]) -> io::Result<()> {
    let closed = sentencing::close_staged(scored(5, false), offered_of_l(), &BOOK, sample);
    say(rt, case, closed.map(Lot))
}

fn stages_of_three(rt: &impl Print) -> io::Result<()> {
    closed_of_l(rt, "six clean items in stages of 3: ", &[0; 12])?;
    closed_of_l(rt, "totals 1,2,2,2,3 in stages of 3: ", &five_totals())
}

pub(crate) fn all(rt: &impl Print) -> io::Result<()> {
    two_stages(rt)?;
    five_stages(rt)?;
    stages_of_three(rt)
}
