#![tactic(auto)]

// Which plan a lot gets: of the tables, and of the book, of each kind.
ghost use Rattle.std.specs.Prelude.{◌≡◌, ◌*◌, ◌≤◌, length, sum_by, IfOk};
ghost use Rattle.refusals.specs.Paper.{answer_by, reason_by, itself};
ghost use Rattle.rules.specs.Book.{check_book, sound, variables, variables_of};
ghost use Rattle.rules.specs.Entries.{single_plan, curtailed_plan, staged_plan, sequential_plan, variables_plan};
ghost use Rattle.rules.specs.Entries.{readings_plan, sides_plan, lettered, unless_above};
ghost use Rattle.rules.specs.Planning.{join_sides};
ghost use Rattle.plans.specs.Paper.{asked_paper, plan_paper};
ghost use Rattle.entry.specs.Paper.{staged_paper, sequential_paper, variables_paper, sides_paper};
ghost use Rattle.choosing.specs.Paper.{lettered_by, plan_alone, place_for, plan_at, section_if};

use entry::{SequentialPlan, SidesPlan, Stage, StagedPlan, VariablesPlan};
use plans::{Asked, REDUCED, SinglePlan};
use refusals::{Reason, Refusal};

// A plan that only a book supplies, with the lot's Table 1 letter.
#[derive(Clone, Copy)]
pub struct Lettered<P> {
    pub letter: u8,
    pub plan: P,
}

// "A plan is looked up by severity (sections 2 to 4), Table 1 letter and column", in the fifth as in the fourth: the
// place of the entry, with the letter.
#[tactic(auto, using(crate::proofs::Supplies::unasked_sound))]
fn look_up(kind: usize, lot: Asked, book: &[u8]) -> Result<Lettered<usize>, Refusal>
    ensures answer { answer_by (lettered_by itself) result ≡ place_for kind (asked_paper lot) book.now }
    ensures within { IfOk result (λ x. 2 * x.plan ≤ length book.now) }
{
    let letter = match plans::asked_letter(lot) {
        Ok(letter) => letter,
        Err(reason) => {
            // "12 first".
            book::check_book(book)?;
            return Err(reason.into());
        }
    };
    let plan = book::find(kind, lot.severity, letter, lot.column, book)?;
    Ok(Lettered { letter, plan })
}

// As `look_up`, in a book that is known to be sound: it is not checked again.
fn look_up_again(kind: usize, lot: Asked, book: &[u8]) -> Result<Lettered<usize>, Refusal>
    requires { check_book book.now ≡ sound }
    ensures answer { answer_by (lettered_by itself) result ≡ place_for kind (asked_paper lot) book.now }
    ensures within { IfOk result (λ x. 2 * x.plan ≤ length book.now) }
{
    let letter = plans::asked_letter(lot)?;
    let plan = book::find_again(kind, lot.severity, letter, lot.column, book)?;
    Ok(Lettered { letter, plan })
}

// "a staged total, nt or variables n above the lot size".
fn unless_above(lot: Asked, needed: u64) -> Result<(), Reason>
    ensures { reason_by itself result ≡ unless_above lot.size needed tt }
{
    if u64::from(lot.size) < needed {
        return Err(Reason::NoPlan);
    }
    Ok(())
}

// The single plan of a lot. "Reduced singles come from the plan book, by the Table 1 letter; a size at or above the lot
// is cut alike."
pub fn single_plan(lot: Asked, book: &[u8]) -> Result<SinglePlan, Refusal>
    ensures { answer_by plan_paper result ≡ single_plan (asked_paper lot) book.now }
{
    if lot.severity != REDUCED {
        return curtailed_plan(lot, book);
    }
    let found = look_up(entry::REDUCED, lot, book)?;
    let held = entry::reduced_at(&book[2 * found.plan..]);
    Ok(plans::cut_plan(lot.size, found.letter, held.n, held.ac))
}

// The plan of a curtailed sample: that of the tables, which is the single plan under normal or tightened.
pub fn curtailed_plan(lot: Asked, book: &[u8]) -> Result<SinglePlan, Refusal>
    ensures { answer_by plan_paper result ≡ curtailed_plan (asked_paper lot) book.now }
{
    book::check_book(book)?;
    Ok(plans::table_plan(lot)?)
}

// The items of all these stages.
fn total_size(stages: &[Stage]) -> u64
    requires { length stages.now ≤ 7 }
    ensures { result ≡ sum_by (λ s. s.size) stages.now }
{
    stages.iter().map(|stage| u64::from(stage.size)).sum()
}

// One function for each kind of plan: each reads its own entry, and needs its own number of items.
// The staged plan of a lot: its stages are not more than the lot.
pub fn staged_plan(lot: Asked, book: &[u8]) -> Result<Lettered<StagedPlan>, Refusal>
    ensures { answer_by (lettered_by staged_paper) result
        ≡ lettered (asked_paper lot) (staged_plan (asked_paper lot) book.now) }
{
    let found = look_up(entry::STAGED, lot, book)?;
    let plan = entry::staged_at(&book[2 * found.plan..]);
    let stages = &plan.stages[..usize::from(plan.count)];
    unless_above(lot, total_size(stages))?;
    Ok(Lettered {
        letter: found.letter,
        plan,
    })
}

// The sequential plan of a lot: nt is not more than the lot.
pub fn sequential_plan(lot: Asked, book: &[u8]) -> Result<Lettered<SequentialPlan>, Refusal>
    ensures { answer_by (lettered_by sequential_paper) result
        ≡ lettered (asked_paper lot) (sequential_plan (asked_paper lot) book.now) }
{
    let found = look_up(entry::SEQUENTIAL, lot, book)?;
    let plan = entry::sequential_at(&book[2 * found.plan..]);
    unless_above(lot, u64::from(plan.nt))?;
    Ok(Lettered {
        letter: found.letter,
        plan,
    })
}

// The section of a method's plans. A truth value, as `sides_plan` promises: a plan asks no more of a spread.
fn section_for(known: bool) -> usize
    ensures { result ≡ section_if known }
{
    if known {
        entry::SIGMA
    } else {
        entry::VARIABLES
    }
}

// The plan for readings at the place that was found: n is not more than the lot.
fn readings_at(
    found: Lettered<usize>,
    lot: Asked,
    book: &[u8],
) -> Result<Lettered<VariablesPlan>, Reason>
    requires { 2 * found.plan ≤ length book.now }
    ensures { reason_by (lettered_by variables_paper) result
        ≡ plan_at variables variables_of (λ p. p.n) lot.size book.now (lettered_by itself found) }
{
    let plan = entry::variables_at(&book[2 * found.plan..]);
    unless_above(lot, u64::from(plan.n))?;
    Ok(Lettered {
        letter: found.letter,
        plan,
    })
}

// The plan for readings, by the s method or with a known spread.
pub fn readings_plan(
    known: bool,
    lot: Asked,
    book: &[u8],
) -> Result<Lettered<VariablesPlan>, Refusal>
    ensures { answer_by (lettered_by variables_paper) result
        ≡ lettered (asked_paper lot) (readings_plan (section_if known) (asked_paper lot) book.now) }
{
    let found = look_up(section_for(known), lot, book)?;
    Ok(readings_at(found, lot, book)?)
}

// As `readings_plan`, of a book that is known to be sound: as a parameter the look-up would want a longer contract.
fn readings_plan_again(
    known: bool,
    lot: Asked,
    book: &[u8],
) -> Result<Lettered<VariablesPlan>, Refusal>
    requires { check_book book.now ≡ sound }
    ensures { answer_by (lettered_by variables_paper) result
        ≡ lettered (asked_paper lot) (readings_plan (section_if known) (asked_paper lot) book.now) }
{
    let found = look_up_again(section_for(known), lot, book)?;
    Ok(readings_at(found, lot, book)?)
}

// The variables plan of a lot.
pub fn variables_plan(lot: Asked, book: &[u8]) -> Result<Lettered<VariablesPlan>, Refusal>
    ensures { answer_by (lettered_by variables_paper) result
        ≡ lettered (asked_paper lot) (variables_plan (asked_paper lot) book.now) }
{
    readings_plan(false, lot, book)
}

// Both sides: of two refusals "the lowest number"; "6 when the two sides' entries differ in n".
fn join(
    upper: Result<Lettered<VariablesPlan>, Refusal>,
    lower: Result<Lettered<VariablesPlan>, Refusal>,
) -> Result<SidesPlan, Refusal>
    ensures { answer_by sides_paper result
        ≡ join_sides (answer_by plan_alone upper) (answer_by plan_alone lower) }
{
    if let (Err(first), Err(second)) = (upper, lower) {
        return Err(if second.reason < first.reason {
            second
        } else {
            first
        });
    }
    let upper = upper?.plan;
    let lower = lower?.plan;
    if upper.n != lower.n {
        return Err(Reason::NoPlan.into());
    }
    Ok(SidesPlan {
        n: upper.n,
        upper_k: upper.k,
        lower_k: lower.k,
    })
}

// The plan for two limits: the lot is asked about under its upper column, and under a lower one.
pub fn sides_plan(known: bool, lot: Asked, lower: u32, book: &[u8]) -> Result<SidesPlan, Refusal>
    ensures { answer_by sides_paper result
        ≡ sides_plan (section_if known) (asked_paper lot) lower book.now }
{
    let under = Asked {
        column: lower,
        ..lot
    };
    let upper = readings_plan(known, lot, book);
    // Under one column both sides have what was looked up once.
    if lower == lot.column {
        return join(upper, upper);
    }
    // Only a sound book gives a plan, so that it needs no other check.
    let sound = upper.is_ok();
    let lower = if sound {
        readings_plan_again(known, under, book)
    } else {
        readings_plan(known, under, book)
    };
    join(upper, lower)
}
