// Single sampling with fractional acceptance numbers: which plan, does the lot pass, what next.
ghost use Rattle.std.specs.Prelude.{◌≡◌, ◌<◌};
ghost use Rattle.refusals.specs.Paper.{answer_by};
ghost use Rattle.rules.specs.Fractional.{verdict_by_share};
ghost use Rattle.rules.specs.Entries.{fractional_plan, judge_fractional, origin_of, close_fractional};
ghost use Rattle.plans.specs.Paper.{asked_paper, verdict_paper, judged_by, fractional_paper};
ghost use Rattle.severity.specs.Paper.{origin_paper};
ghost use Rattle.supply.specs.Paper.{supply_paper};
ghost use Rattle.closing.specs.Paper.{offered_paper, closed_by};

use super::closings::on_record;
use choosing::single_plan;
use closing::{Closed, Offered};
use plans::{Asked, FractionalPlan, Judged, REDUCED, Verdict};
use refusals::Refusal;
use severity::Origin;
use supply::Supply;

// The plan of a lot in this mode; under reduced inspection, whose plans are the book's, one with a whole Ac, as ever.
pub fn fractional_plan(lot: Asked, book: &[u8]) -> Result<FractionalPlan, Refusal>
    ensures { answer_by fractional_paper result ≡ fractional_plan (asked_paper lot) book.now }
{
    if lot.severity == REDUCED {
        let plan = single_plan(lot, book)?;
        return Ok(FractionalPlan { plan, share: 0 });
    }
    book::check_book(book)?;
    Ok(plans::fractional_table_plan(lot)?)
}

// On a fraction a sample passes by the clean ones before it.
fn by_share(share: u8, before: u8, verdict: Verdict) -> Verdict
    ensures { verdict_paper result ≡ verdict_by_share share before (verdict_paper verdict) }
{
    if share == 0 {
        return verdict;
    }
    Verdict {
        accepted: supply::fraction_accepts(share, before, verdict.total),
        ..verdict
    }
}

// The verdict on a single sample in this mode, by the clean run as far as it is on the plan; nothing moves.
pub fn judge_fractional(
    old: Supply,
    lot: Offered,
    book: &[u8],
    sample: &[u8],
) -> Result<Judged<FractionalPlan>, Refusal>
    ensures { answer_by (judged_by fractional_paper) result
        ≡ judge_fractional (supply_paper old) (offered_paper lot) book.now sample.now }
{
    on_record(old, book)?;
    let plan = fractional_plan(closing::asked_on(old, lot), book)?;
    let counted = samples::single_sample(lot.column, plan.plan, sample)?;
    let before = supply::run_on(old.clean, plan.plan.letter, lot.column);
    let verdict = by_share(plan.share, before, counted);
    Ok(Judged { plan, verdict })
}

// How a judged lot enters: on a fraction with its plan and its total, held at 2.
fn origin_of(lot: Offered, judged: Judged<FractionalPlan>) -> Origin
    requires { lot.column < 26 }
    ensures { origin_paper result ≡ origin_of (offered_paper lot) (judged_by fractional_paper judged) }
{
    let plan = judged.plan;
    if plan.share == 0 {
        return Origin::Sampled;
    }
    let total = judged.verdict.total.min(2) as u8;
    Origin::Fraction(plan.plan.letter, lot.column as u8, total)
}

// A lot closed from a single sample in this mode.
pub fn close_fractional(
    old: Supply,
    lot: Offered,
    book: &[u8],
    sample: &[u8],
) -> Result<Closed<FractionalPlan>, Refusal>
    ensures { answer_by (closed_by fractional_paper) result
        ≡ close_fractional (supply_paper old) (offered_paper lot) book.now sample.now }
{
    let judged = judge_fractional(old, lot, book, sample)?;
    let from = origin_of(lot, judged);
    let event = closing::single_event(old, lot, from, judged.plan.plan, judged.verdict);
    closing::enter(old, event, judged)
}
