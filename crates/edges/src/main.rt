// Every case of document 01's 'Worked at the edges' run through the public entries, each printed with its answer, and
// cases of document 02, T-01 to T-05 and T-07. (lotlog's listing is run by the program lotlog.)
#![tactic(auto)]

mod answers;
mod books;
mod curtailed;
mod fractions;
mod limits;
mod stages;

use answers::{Answer, Judgement, Letter, Sequential, Single, Staged, Variables};
use closing::Offered;
use gauge::{Limit, Spread};
use plans::{Asked, Judged};
use refusals::Refusal;
use std::{fmt, io};

// A bench without a book lends four empty sections.
const NO_BOOK: [u8; 8] = [0; 8];

// Under normal inspection and letter L: at column 10 five stages of 3 and a sequential plan, at columns 0 to 2
// variables plans of 3 readings with K 4,000, 3,500 and 3,501.
const BOOK: [u8; 92] = [
    0, 0, 1, 0, 0, 0, 10, 0, 10, 0, 5, 0, 3, 0, 3, 0, 3, 0, 3, 0, 3, 0, 255, 255, 2, 0, 0, 0, 3, 0,
    0, 0, 3, 0, 1, 0, 3, 0, 3, 0, 4, 0, 1, 0, 0, 0, 10, 0, 10, 0, 214, 6, 199, 8, 98, 37, 98, 0, 9,
    0, 3, 0, 0, 0, 10, 0, 0, 0, 3, 0, 160, 15, 0, 0, 10, 0, 1, 0, 3, 0, 172, 13, 0, 0, 10, 0, 2, 0,
    3, 0, 173, 13,
];

// A case and its answer.
fn say<T: fmt::Display + Drop>(
    rt: &impl Print,
    case: &str,
    answer: Result<T, Refusal>,
) -> io::Result<()> {
    println!(rt; "{case}{}", Answer(answer))
}

fn say_judged<P: Copy>(
    rt: &impl Print,
    case: &str,
    answer: Result<Judged<P>, Refusal>,
) -> io::Result<()> {
    say(rt, case, answer.map(|judged| Judgement(judged.verdict)))
}

fn letter(rt: &impl Print, case: &str, size: u32, level: u32) -> io::Result<()> {
    let found = plans::letter(size, level).map_err(Refusal::from);
    say(rt, case, found.map(Letter))
}

fn plan(
    rt: &impl Print,
    case: &str,
    size: u32,
    level: u32,
    column: u32,
    severity: u32,
) -> io::Result<()> {
    let lot = Asked {
        severity,
        size,
        level,
        column,
    };
    say(rt, case, sentencing::single_plan(lot, &NO_BOOK).map(Single))
}

// A lot of 10,000 at level II under normal inspection, which has letter L.
fn lot_of_l(column: u32) -> Asked {
    Asked {
        severity: 0,
        size: 10000,
        level: 5,
        column,
    }
}

// The same lot, offered to be closed by its stages.
fn offered_of_l() -> Offered {
    Offered {
        again: false,
        size: 10000,
        level: 5,
        column: 10,
    }
}

fn staged_plan(rt: &impl Print, case: &str, column: u32) -> io::Result<()> {
    let planned = sentencing::staged_plan(lot_of_l(column), &BOOK);
    say(rt, case, planned.map(Staged))
}

fn sequential_plan(rt: &impl Print, case: &str, column: u32) -> io::Result<()> {
    let planned = sentencing::sequential_plan(lot_of_l(column), &BOOK);
    say(rt, case, planned.map(Sequential))
}

fn variables_plan(rt: &impl Print, case: &str, column: u32) -> io::Result<()> {
    let planned = sentencing::variables_plan(lot_of_l(column), &BOOK);
    say(rt, case, planned.map(Variables))
}

fn sequential(rt: &impl Print, case: &str, sample: &[u8]) -> io::Result<()> {
    say_judged(
        rt,
        case,
        sentencing::judge_sequential(lot_of_l(10), &BOOK, sample),
    )
}

fn staged(rt: &impl Print, case: &str, sample: &[u8]) -> io::Result<()> {
    say_judged(
        rt,
        case,
        sentencing::judge_staged(lot_of_l(10), &BOOK, sample),
    )
}

fn variables(
    rt: &impl Print,
    case: &str,
    column: u32,
    limit: i32,
    readings: &[u8],
) -> io::Result<()> {
    let limit = Limit::Upper(limit);
    let judged = sentencing::judge_limit(
        Spread::Estimated,
        limit,
        lot_of_l(column),
        &BOOK,
        readings,
    );
    say_judged(rt, case, judged)
}

// The severity after the last byte.
fn history(rt: &impl Print, case: &str, bytes: &[u8]) -> io::Result<()> {
    let mut out = [0u8; 16];
    let listed = sentencing::list_severities(bytes, &mut out);
    say(
        rt,
        case,
        listed.map(|n| out.iter().take(n).last().copied().unwrap_or_default()),
    )
}

fn letters(rt: &impl Print) -> io::Result<()> {
    letter(rt, "size 8, III: ", 8, 6)?;
    letter(rt, "size 9, III: ", 9, 6)?;
    letter(rt, "size 500, II: ", 500, 5)?;
    letter(rt, "size 501, II: ", 501, 5)
}

fn single_plans(rt: &impl Print) -> io::Result<()> {
    plan(rt, "normal L, 0.65: ", 10000, 5, 9, 0)?;
    plan(rt, "normal K, 1.5: ", 3200, 5, 11, 0)?;
    plan(rt, "tightened K, 1.5: ", 3200, 5, 11, 1)?;
    plan(rt, "normal R, 0.015: ", 500001, 6, 1, 0)?;
    plan(rt, "tightened R, 0.025: ", 500001, 6, 2, 1)?;
    plan(rt, "normal A, 10: ", 8, 5, 15, 0)?;
    plan(rt, "size 10, II, 0.10: ", 10, 5, 5, 0)?;
    plan(rt, "size 125, II, 0.10: ", 125, 5, 5, 0)?;
    plan(rt, "size 126, II, 0.10: ", 126, 5, 5, 0)
}

fn book_plans(rt: &impl Print) -> io::Result<()> {
    staged_plan(rt, "stages of normal L, 1.0: ", 10)?;
    staged_plan(rt, "stages of normal L, 0.65: ", 9)?;
    sequential_plan(rt, "lines of normal L, 1.0: ", 10)?;
    sequential_plan(rt, "lines of normal L, 0.65: ", 9)?;
    variables_plan(rt, "readings of normal L, 0.010: ", 0)?;
    variables_plan(rt, "readings of normal L, 1.0: ", 10)
}

fn sequential_samples(rt: &impl Print) -> io::Result<()> {
    let clean = [0u8; 38];
    sequential(rt, "19 clean items: ", &clean)?;
    sequential(rt, "18 clean items: ", &clean[..36])?;
    let bad = [1u8, 0, 1, 0, 1, 0];
    sequential(rt, "three bad items: ", &bad)?;
    let mut last = [0u8; 196];
    last[36] = 1;
    last[56] = 1;
    last[78] = 1;
    last[98] = 1;
    last[120] = 1;
    last[140] = 1;
    last[160] = 1;
    last[182] = 1;
    last[194] = 1;
    sequential(rt, "9 bad of 98: ", &last)?;
    last[0] = 1;
    sequential(rt, "10 bad of 98: ", &last)
}

// Running totals 1, 2, 2, 2, 3 in stages of 3.
fn five_totals() -> [u8; 30] {
    let mut items = [0u8; 30];
    items[0] = 1;
    items[6] = 1;
    items[24] = 1;
    items
}

fn staged_samples(rt: &impl Print) -> io::Result<()> {
    let clean = [0u8; 12];
    staged(rt, "six clean items in stages of 3: ", &clean)?;
    let five = five_totals();
    staged(rt, "totals 1,2,2,2,3 in stages of 3: ", &five)
}

fn variables_samples(rt: &impl Print) -> io::Result<()> {
    let spread = [10u8, 0, 12, 0, 14, 0];
    variables(rt, "10, 12, 14 under 20, K 4,000: ", 0, 20, &spread)?;
    variables(rt, "10, 12, 14 under 19, K 3,500: ", 1, 19, &spread)?;
    variables(rt, "10, 12, 14 under 19, K 3,501: ", 2, 19, &spread)?;
    variables(rt, "10, 12, 14 under 11, K 4,000: ", 0, 11, &spread)?;
    let equal = [20u8, 0, 20, 0, 20, 0];
    variables(rt, "20, 20, 20 under 20, K 4,000: ", 0, 20, &equal)
}

fn histories(rt: &impl Print) -> io::Result<()> {
    let close = [3u8, 0, 0, 0, 3];
    history(rt, "3,0,0,0,3 ends in severity ", &close)?;
    let far = [3u8, 0, 0, 0, 0, 3];
    history(rt, "3,0,0,0,0,3 ends in severity ", &far)?;
    let steady = [5u8, 7, 0, 0, 0, 0, 0, 0, 0, 0, 0, 0];
    history(rt, "5,7 and ten 0 end in severity ", &steady)?;
    history(rt, "5,7 and nine 0 end in severity ", &steady[..11])
}

fn main(rt: HostRuntime) -> io::Result<()> {
    letters(&rt)?;
    single_plans(&rt)?;
    book_plans(&rt)?;
    sequential_samples(&rt)?;
    staged_samples(&rt)?;
    variables_samples(&rt)?;
    histories(&rt)?;
    fractions::all(&rt)?;
    stages::all(&rt)?;
    books::all(&rt)?;
    curtailed::all(&rt)?;
    limits::all(&rt)
}
