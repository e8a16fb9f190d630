// The plan of a lot before it is drawn, and whether a book is sound.
ghost use Rattle.std.specs.Prelude.{◌≡◌, ◌*◌, ◌≤◌, ◌++◌, length, drop};
ghost use Rattle.std.proofs.lemmas.List.Edits.{sets};
ghost use Rattle.rules.specs.Codes.{table_one_letter};
ghost use Rattle.rules.specs.Numbers.{number_bytes};
ghost use Rattle.rules.specs.Entries.{single_plan, fractional_plan, staged_plan, sequential_plan, variables_plan};
ghost use Rattle.rules.specs.Entries.{lettered};
ghost use Rattle.rules.specs.Terminal.{status_of, row_length, row_bytes};
ghost use Rattle.entry.specs.Paper.{staged_paper};
ghost use Rattle.terminal.specs.Lent.{asked, NumberLeft, PlanLeft, FractionalPlanLeft, StagedPlanLeft};
ghost use Rattle.terminal.specs.Lent.{SequentialPlanLeft, VariablesPlanLeft, book_checked};

use super::telling::{asked, status};
use entry::StagedPlan;
use plans::FractionalPlan;
use refusals::Reason;

// A lent row of a staged plan is that long.
const ROW_BYTES: usize = 42;

// The letter of Table 1.
#[unsafe(no_mangle)]
pub extern "C" fn hm_letter(size: u32, level: u32, letter: &mut u8) -> u32
    ensures { NumberLeft (table_one_letter size level) result letter.old letter.new }
{
    match plans::letter(size, level) {
        Ok(found) => {
            *letter = found;
            0
        }
        Err(reason) => status(reason.into()),
    }
}

// The single plan of a lot.
#[unsafe(no_mangle)]
pub extern "C" fn hm_plan(
    size: u32,
    level: u32,
    column: u32,
    severity: u32,
    book: &[u8],
    letter: &mut u8,
    n: &mut u16,
    ac: &mut u16,
    table_n: &mut u16,
    cut: &mut u8,
) -> u32
    ensures { PlanLeft (single_plan (asked severity size level column) book.now) result
        letter.old letter.new
        n.old n.new
        ac.old ac.new
        table_n.old table_n.new
        cut.old cut.new }
{
    let lot = asked(severity, size, level, column);
    match sentencing::single_plan(lot, book) {
        Ok(plan) => {
            *letter = plan.letter;
            *n = plan.n;
            *ac = plan.ac;
            *table_n = plan.table_n;
            *cut = u8::from(plan.cut);
            0
        }
        Err(refusal) => status(refusal),
    }
}

// The single plan of a lot in the mode of fractions: `share` 2 is one half, 3 one third, 0 a whole Ac.
#[unsafe(no_mangle)]
pub extern "C" fn hm_fractional_plan(
    size: u32,
    level: u32,
    column: u32,
    severity: u32,
    book: &[u8],
    letter: &mut u8,
    n: &mut u16,
    ac: &mut u16,
    share: &mut u8,
    table_n: &mut u16,
    cut: &mut u8,
) -> u32
    ensures { FractionalPlanLeft (fractional_plan (asked severity size level column) book.now) result
        letter.old letter.new
        n.old n.new
        ac.old ac.new
        share.old share.new
        table_n.old table_n.new
        cut.old cut.new }
{
    let lot = asked(severity, size, level, column);
    match sentencing::fractional_plan(lot, book) {
        Ok(
            FractionalPlan {
                plan,
                share: fraction,
            },
        ) => {
            *letter = plan.letter;
            *n = plan.n;
            *ac = plan.ac;
            *share = fraction;
            *table_n = plan.table_n;
            *cut = u8::from(plan.cut);
            0
        }
        Err(refusal) => status(refusal),
    }
}

// Numbers of 16 bits, little-endian, over a whole part of a row.
#[tactic(auto, unfolding(rules::specs::Numbers::number_bytes))]
fn put_numbers(part: &mut [u8], numbers: &[u16])
    requires { length part.old ≡ 2 * length numbers.now }
    ensures stored { part.new ≡ sets part.old 0 (number_bytes numbers.now) }
    ensures whole { part.new ≡ number_bytes numbers.now }
{
    for (i, x) in numbers.iter().enumerate() {
        part[2 * i..2 * i + 2].copy_from_slice(&x.to_le_bytes());
    }
}

// A staged plan's sizes, Ac and Re.
fn put_row(row: &mut [u8], plan: StagedPlan)
    requires { row_length ≤ length row.old }
    ensures { row.new ≡ row_bytes (staged_paper plan) ++ drop row_length row.old }
{
    let (sizes, rest) = row.split_at_mut(14);
    let (acs, rest) = rest.split_at_mut(14);
    put_numbers(sizes, &plan.stages.map(|stage| stage.size));
    put_numbers(acs, &plan.stages.map(|stage| stage.ac));
    put_numbers(&mut rest[..14], &plan.stages.map(|stage| stage.re));
}

// The staged plan of a lot: its number of stages, and its row, 0 past its stages.
#[unsafe(no_mangle)]
pub extern "C" fn hm_staged_plan(
    size: u32,
    level: u32,
    column: u32,
    severity: u32,
    book: &[u8],
    letter: &mut u8,
    stages: &mut u8,
    row: &mut [u8],
) -> u32
    ensures { StagedPlanLeft
        (lettered (asked severity size level column)
        (staged_plan (asked severity size level column) book.now)) result
        letter.old letter.new
        stages.old stages.new
        row.old row.new }
{
    let lot = asked(severity, size, level, column);
    match sentencing::staged_plan(lot, book) {
        Ok(_) if row.len() < ROW_BYTES => status(Reason::BufferShort.into()),
        Ok(found) => {
            *letter = found.letter;
            *stages = found.plan.count;
            put_row(row, found.plan);
            0
        }
        Err(refusal) => status(refusal),
    }
}

// The sequential plan of a lot.
#[unsafe(no_mangle)]
pub extern "C" fn hm_sequential_plan(
    size: u32,
    level: u32,
    column: u32,
    severity: u32,
    book: &[u8],
    letter: &mut u8,
    ha: &mut u16,
    hr: &mut u16,
    g: &mut u16,
    nt: &mut u16,
    at: &mut u16,
) -> u32
    ensures { SequentialPlanLeft
        (lettered (asked severity size level column)
        (sequential_plan (asked severity size level column) book.now)) result
        letter.old letter.new
        ha.old ha.new
        hr.old hr.new
        g.old g.new
        nt.old nt.new
        at.old at.new }
{
    let lot = asked(severity, size, level, column);
    match sentencing::sequential_plan(lot, book) {
        Ok(found) => {
            *letter = found.letter;
            *ha = found.plan.ha;
            *hr = found.plan.hr;
            *g = found.plan.g;
            *nt = found.plan.nt;
            *at = found.plan.at_nt;
            0
        }
        Err(refusal) => status(refusal),
    }
}

// The variables plan of a lot.
#[unsafe(no_mangle)]
pub extern "C" fn hm_variables_plan(
    size: u32,
    level: u32,
    column: u32,
    severity: u32,
    book: &[u8],
    letter: &mut u8,
    n: &mut u16,
    k: &mut u16,
) -> u32
    ensures { VariablesPlanLeft
        (lettered (asked severity size level column)
        (variables_plan (asked severity size level column) book.now)) result
        letter.old letter.new
        n.old n.new
        k.old k.new }
{
    let lot = asked(severity, size, level, column);
    match sentencing::variables_plan(lot, book) {
        Ok(found) => {
            *letter = found.letter;
            *n = found.plan.n;
            *k = found.plan.k;
            0
        }
        Err(refusal) => status(refusal),
    }
}

// Is the book sound? Else 12 with its byte.
#[unsafe(no_mangle)]
pub extern "C" fn hm_check_book(book: &[u8]) -> u32
    ensures { result ≡ status_of (book_checked book.now) }
{
    match book::check_book(book) {
        Ok(()) => 0,
        Err(refusal) => status(refusal),
    }
}
