// Document 02, T-01: the first and last box of each fraction, the clean run and what ends it, each printed with its
// answer.
use super::answers::Fractional;
use super::{BOOK, NO_BOOK, offered_of_l, say, say_judged, sequential, variables};
use closing::{Closed, Offered};
use plans::Asked;
use refusals::Refusal;
use severity::STOPPED;
use std::io;
use supply::{CleanRun, Supply};

// Levels by their codes.
const II: u32 = 5;

const III: u32 = 6;

fn plan(
    rt: &impl Print,
    case: &str,
    severity: u32,
    size: u32,
    level: u32,
    column: u32,
) -> io::Result<()> {
    let lot = Asked {
        severity,
        size,
        level,
        column,
    };
    let planned = sentencing::fractional_plan(lot, &NO_BOOK);
    say(rt, case, planned.map(Fractional))
}

// A lot of letter A at 10, which is one third of normal inspection and takes 2 items.
fn lot_of_a(size: u32) -> Offered {
    Offered {
        again: false,
        size,
        level: II,
        column: 15,
    }
}

// A lot of letter B at 10: one half of normal inspection, one third of tightened, of 3 items.
fn lot_of_b() -> Offered {
    Offered {
        again: false,
        size: 8,
        level: III,
        column: 15,
    }
}

fn fresh() -> Supply {
    supply::fresh(severity::ours())
}

// A record that no case gives back in place of a refused one.
fn lost() -> Supply {
    let mut none = fresh();
    none.switching.severity = STOPPED;
    none
}

fn after<P: Copy>(answer: Result<Closed<P>, Refusal>) -> Supply {
    answer.map_or(lost(), |closed| closed.supply_after)
}

fn closed(old: Supply, lot: Offered, sample: &[u8]) -> Supply {
    after(sentencing::close_fractional(old, lot, &NO_BOOK, sample))
}

fn typed(old: Supply, byte: u32) -> Supply {
    sentencing::next(old, byte).unwrap_or(lost())
}

fn clean_a(old: Supply) -> Supply {
    let clean = [0u8; 4];
    closed(old, lot_of_a(8), &clean)
}

fn clean_b(old: Supply) -> Supply {
    let clean = [0u8; 6];
    closed(old, lot_of_b(), &clean)
}

// Two clean lots of letter A.
fn two_clean() -> Supply {
    clean_a(clean_a(fresh()))
}

fn judged(rt: &impl Print, case: &str, old: Supply, lot: Offered, sample: &[u8]) -> io::Result<()> {
    let Supply { switching, clean } = old;
    print!(rt;
        "{case}severity {}, run {}, ",
        switching.severity, clean.run
    )?;
    say_judged(
        rt,
        "",
        sentencing::judge_fractional(old, lot, &NO_BOOK, sample),
    )
}

// One bad item in a lot of letter A.
fn one_bad(rt: &impl Print, case: &str, old: Supply) -> io::Result<()> {
    let one = [0u8, 0, 1, 0];
    judged(rt, case, old, lot_of_a(8), &one)
}

fn boxes(rt: &impl Print) -> io::Result<()> {
    plan(rt, "normal A, 10: ", 0, 8, II, 15)?;
    plan(rt, "normal R, 0.010: ", 0, 500001, III, 0)?;
    plan(rt, "normal A, 15: ", 0, 8, II, 16)?;
    plan(rt, "normal B, 10: ", 0, 8, III, 15)?;
    plan(rt, "normal R, 0.015: ", 0, 500001, III, 1)?;
    plan(rt, "normal A, 6.5: ", 0, 8, II, 14)?;
    plan(rt, "tightened A, 15: ", 1, 8, II, 16)?;
    plan(rt, "tightened B, 10: ", 1, 8, III, 15)?;
    plan(rt, "tightened R, 0.015: ", 1, 500001, III, 1)?;
    plan(rt, "tightened B, 15: ", 1, 8, III, 16)?;
    plan(rt, "tightened C, 10: ", 1, 15, III, 15)?;
    plan(rt, "tightened R, 0.025: ", 1, 500001, III, 2)?;
    plan(rt, "tightened A, 10: ", 1, 8, II, 15)?;
    plan(rt, "size 3, normal B, 10: ", 0, 3, III, 15)?;
    plan(rt, "size 2, normal B, 10: ", 0, 2, III, 15)
}

fn fractions(rt: &impl Print) -> io::Result<()> {
    one_bad(rt, "one bad under 1/3, no lot before: ", fresh())?;
    one_bad(rt, "after one clean: ", clean_a(fresh()))?;
    one_bad(rt, "after two clean: ", two_clean())?;
    one_bad(rt, "after three clean: ", clean_a(two_clean()))?;
    let two = [1u8, 0, 1, 0];
    judged(
        rt,
        "two bad after two clean: ",
        two_clean(),
        lot_of_a(8),
        &two,
    )?;
    let one = [0u8, 0, 1, 0, 0, 0];
    judged(
        rt,
        "one bad under 1/2, no lot before: ",
        fresh(),
        lot_of_b(),
        &one,
    )?;
    judged(
        rt,
        "after one clean of B: ",
        clean_b(fresh()),
        lot_of_b(),
        &one,
    )?;
    judged(rt, "after two clean of A: ", two_clean(), lot_of_b(), &one)?;
    let again = closed(two_clean(), lot_of_a(8), &one[..4]);
    one_bad(rt, "one accepted so, and again: ", again)
}

fn broken_runs(rt: &impl Print) -> io::Result<()> {
    one_bad(rt, "two clean, then byte 0: ", typed(two_clean(), 0))?;
    let six = [0u8; 12];
    let staged = sentencing::close_staged(two_clean(), offered_of_l(), &BOOK, &six);
    one_bad(rt, "then a staged lot: ", after(staged))?;
    let single = sentencing::close_single(two_clean(), lot_of_a(8), &NO_BOOK, &six[..10]);
    one_bad(rt, "then the same box with its arrow: ", after(single))?;
    one_bad(rt, "then a clean lot of B: ", clean_b(two_clean()))
}

fn changed_severity(rt: &impl Print) -> io::Result<()> {
    let one = [0u8, 0, 1, 0, 0, 0];
    let tightened = typed(typed(fresh(), 3), 3);
    let four = clean_b(clean_b(clean_b(clean_b(tightened))));
    judged(rt, "tightened, four clean of B: ", four, lot_of_b(), &one)?;
    judged(rt, "and a fifth: ", clean_b(four), lot_of_b(), &one)
}

fn kept_runs(rt: &impl Print) -> io::Result<()> {
    one_bad(rt, "two clean, then steady: ", typed(two_clean(), 5))?;
    let mut back = lot_of_a(8);
    back.again = true;
    let two = [1u8, 0, 1, 0];
    one_bad(
        rt,
        "then a resubmitted lot: ",
        closed(two_clean(), back, &two),
    )?;
    let clean = [0u8; 4];
    let other = closed(clean_a(fresh()), lot_of_a(3), &clean);
    one_bad(rt, "lots of 8 and of 3, clean: ", other)
}

// Verdicts that no record takes in.
fn passed_over(rt: &impl Print) -> io::Result<()> {
    let old = two_clean();
    let items = [0u8; 38];
    sequential(rt, "two clean, then a sequential lot: ", &items)?;
    let readings = [10u8, 0, 12, 0, 14, 0];
    variables(rt, "and a variables lot: ", 0, 20, &readings)?;
    one_bad(rt, "and one bad: ", old)
}

fn lent(rt: &impl Print, case: &str, run: u8, letter: u8, column: u8) -> io::Result<()> {
    let switching = severity::fresh(severity::ours());
    let clean = CleanRun {
        run,
        letter,
        column,
    };
    one_bad(rt, case, Supply { switching, clean })
}

fn lent_records(rt: &impl Print) -> io::Result<()> {
    lent(rt, "A, 10 lent: ", 2, 0, 15)?;
    lent(rt, "run 3 lent: ", 3, 0, 15)?;
    lent(rt, "no fraction lent: ", 1, 0, 14)?;
    lent(rt, "column over 15 lent: ", 1, 0, 16)?;
    lent(rt, "a plan beside no run lent: ", 0, 0, 15)
}

pub(crate) fn all(rt: &impl Print) -> io::Result<()> {
    boxes(rt)?;
    fractions(rt)?;
    broken_runs(rt)?;
    changed_severity(rt)?;
    kept_runs(rt)?;
    passed_over(rt)?;
    lent_records(rt)
}
