// What next: a lot closed from its sample, with the next record.
ghost use Rattle.std.specs.Prelude.{◌≡◌};
ghost use Rattle.refusals.specs.Paper.{answer_by, itself};
ghost use Rattle.rules.specs.Entries.{close_single, close_curtailed, close_staged};
ghost use Rattle.plans.specs.Paper.{plan_paper};
ghost use Rattle.entry.specs.Paper.{staged_paper};
ghost use Rattle.supply.specs.Paper.{supply_paper};
ghost use Rattle.closing.specs.Paper.{offered_paper, closed_by};
ghost use Rattle.sentencing.specs.Paper.{on_record};

use super::judging::{judge_curtailed, judge_single, judge_staged};
use closing::{Closed, Offered};
use entry::StagedPlan;
use plans::SinglePlan;
use refusals::{Reason, Refusal};
use supply::Supply;

// 1 for a record out of range, after "12 first".
pub(super) fn on_record(old: Supply, book: &[u8]) -> Result<(), Refusal>
    ensures { answer_by itself result ≡ on_record (supply_paper old) book.now }
{
    if supply::in_range(old) {
        return Ok(());
    }
    book::check_book(book)?;
    Err(Reason::UnknownForm.into())
}

// One closing for each kind of sample: as a parameter the judge would want a contract longer than these bodies.
// A lot closed from a single sample.
pub fn close_single(
    old: Supply,
    lot: Offered,
    book: &[u8],
    sample: &[u8],
) -> Result<Closed<SinglePlan>, Refusal>
    ensures { answer_by (closed_by plan_paper) result
        ≡ close_single (supply_paper old) (offered_paper lot) book.now sample.now }
{
    on_record(old, book)?;
    let judged = judge_single(closing::asked_on(old, lot), book, sample);
    closing::take_single(old, lot, judged)?
}

// A lot closed from a curtailed sample.
pub fn close_curtailed(
    old: Supply,
    lot: Offered,
    book: &[u8],
    sample: &[u8],
) -> Result<Closed<SinglePlan>, Refusal>
    ensures { answer_by (closed_by plan_paper) result
        ≡ close_curtailed (supply_paper old) (offered_paper lot) book.now sample.now }
{
    on_record(old, book)?;
    let judged = judge_curtailed(closing::asked_on(old, lot), book, sample);
    closing::take_single(old, lot, judged)?
}

// A lot closed from a staged sample.
pub fn close_staged(
    old: Supply,
    lot: Offered,
    book: &[u8],
    sample: &[u8],
) -> Result<Closed<StagedPlan>, Refusal>
    ensures { answer_by (closed_by staged_paper) result
        ≡ close_staged (supply_paper old) (offered_paper lot) book.now sample.now }
{
    on_record(old, book)?;
    let judged = judge_staged(closing::asked_on(old, lot), book, sample)?;
    let event = closing::staged_event(old, lot, judged.verdict);
    closing::enter(old, event, judged)
}
