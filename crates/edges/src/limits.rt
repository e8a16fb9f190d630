// Document 02, T-07: two limits, and a known spread.
use super::{BOOK, lot_of_l, say_judged};
use gauge::{Limit, Spread};
use std::io;

// Under normal inspection and letter L: sigma plans of 2 readings at column 0, and of 3 at column 1, both with K 1,000.
const SIGMA_BOOK: [u8; 30] = *b"\0\0\0\0\0\0\0\0\x02\0\
    \0\0\x0a\0\0\0\x02\0\xe8\x03\
    \0\0\x0a\0\x01\0\x03\0\xe8\x03";

// Readings of 10, 12 and 14, by the s method.
fn within(
    rt: &impl Print,
    case: &str,
    upper_column: u32,
    lower_column: u32,
    lower: i32,
) -> io::Result<()> {
    let readings = [10u8, 0, 12, 0, 14, 0];
    let lot = lot_of_l(upper_column);
    let spread = Spread::Estimated;
    let judged = sentencing::judge_sides(spread, lot, lower_column, &BOOK, 20, lower, &readings);
    say_judged(rt, case, judged)
}

// Readings of 10 and 10 for one limit.
fn known(rt: &impl Print, case: &str, limit: Limit, sigma: u32, book: &[u8]) -> io::Result<()> {
    let readings = [10u8, 0, 10, 0];
    let spread = Spread::Known(sigma);
    let judged = sentencing::judge_limit(spread, limit, lot_of_l(0), book, &readings);
    say_judged(rt, case, judged)
}

fn known_both(rt: &impl Print, case: &str, lower_column: u32) -> io::Result<()> {
    let readings = [10u8, 0, 10, 0];
    let lot = lot_of_l(0);
    let spread = Spread::Known(1000);
    let judged = sentencing::judge_sides(spread, lot, lower_column, &SIGMA_BOOK, 11, 9, &readings);
    say_judged(rt, case, judged)
}

pub(crate) fn all(rt: &impl Print) -> io::Result<()> {
    within(
        rt,
        "10, 12, 14 within 5 and 20, K 3,500 and 4,000: ",
        0,
        1,
        5,
    )?;
    within(rt, "the columns exchanged: ", 1, 0, 5)?;
    within(rt, "a lower limit of 20: ", 0, 1, 20)?;
    within(rt, "a lower column of 26: ", 3, 26, 5)?;
    known(
        rt,
        "10, 10 under 11, K 1,000, sigma 1,000: ",
        Limit::Upper(11),
        1000,
        &SIGMA_BOOK,
    )?;
    known(
        rt,
        "over 9, sigma 1,001: ",
        Limit::Lower(9),
        1001,
        &SIGMA_BOOK,
    )?;
    known(rt, "and no fifth section: ", Limit::Upper(11), 1000, &BOOK)?;
    known_both(rt, "10, 10 within 9 and 11: ", 0)?;
    known_both(rt, "the lower column with another n: ", 1)
}
