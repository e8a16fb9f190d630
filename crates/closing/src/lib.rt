#![tactic(auto)]

// How a lot closes: how its verdict counts, the event that it stands for and the record after; and a lot that is closed
// by its total, at a bench without a book.
ghost use Rattle.std.specs.Prelude.{◌≡◌, ◌&&◌, ltb, Err};
ghost use Rattle.std.specs.Result.{MatchResult, IsOkAnd};
ghost use Rattle.refusals.specs.Paper.{answer_by, reason_by, itself};
ghost use Rattle.rules.specs.Codes.{counts_items};
ghost use Rattle.rules.specs.Severity.{counted, sampled, single_points, earns_three, staged_points};
ghost use Rattle.rules.specs.Entries.{asked_on, event_for, single_counts, single_event, on_supply, closed_with};
ghost use Rattle.rules.specs.Entries.{total_on, judge_total, close_total};
ghost use Rattle.plans.specs.Paper.{asked_paper, plan_paper, verdict_paper, judged_by};
ghost use Rattle.severity.specs.Paper.{lot_paper, origin_paper, event_paper, record_paper};
ghost use Rattle.supply.specs.Paper.{supply_paper};
ghost use Rattle.closing.specs.Paper.{offered_paper, judged_on, staged_lot, entered, closed_by};

use plans::{Asked, Judged, LAST_OF_ITEMS, SinglePlan, Verdict};
use refusals::{Reason, Refusal};
use severity::{Event, Lot, Origin};
use supply::Supply;

// A lot that is offered to be closed.
#[derive(Clone, Copy)]
pub struct Offered {
    pub again: bool,
    pub size: u32,
    pub level: u32,
    pub column: u32,
}

// How a closed lot was judged, on which plan, the event that it stands for, and the record after.
#[derive(Clone, Copy)]
pub struct Closed<P> {
    pub judged: Judged<P>,
    pub event: Event,
    pub supply_after: Supply,
}

// `tighter` is the Ac one column tighter at the letter that gives the size.
fn single_points(ac: u16, tighter: u16, total: u64) -> Lot
    ensures { lot_paper result ≡ single_points ac tighter total }
{
    if ac < 2 {
        Lot::AddTwo
    } else if total <= u64::from(tighter) {
        Lot::AddThree
    } else {
        Lot::ScoreZero
    }
}

// "the first stage" of two; "For three or more, .. stage 1, 2 or 3".
fn earns_three(stage: u8, stages: u8) -> bool
    ensures { result ≡ earns_three stage stages }
{
    if stages < 3 {
        stage == 1
    } else {
        matches!(stage, 1..=3)
    }
}

fn staged_points(stage: u8, stages: u8) -> Lot
    ensures { lot_paper result ≡ staged_points stage stages }
{
    if earns_three(stage, stages) {
        Lot::AddThree
    } else {
        Lot::ScoreZero
    }
}

// "Resubmitted lots are judged at the present severity and change nothing."
fn event_for(severity: u8, lot: Offered, from: Origin, accepted: bool, points: Lot) -> Event
    ensures { event_paper result
        ≡ event_for (offered_paper lot) (origin_paper from) (counted severity accepted (lot_paper points)) }
{
    if lot.again {
        return Event::Resubmitted;
    }
    Event::Lot(from, supply::counts(severity, accepted, points))
}

// The event that a lot judged on a single plan stands for, by how it enters.
pub fn single_event(
    old: Supply,
    lot: Offered,
    from: Origin,
    plan: SinglePlan,
    verdict: Verdict,
) -> Event
    ensures { event_paper result
        ≡ event_for (offered_paper lot) (origin_paper from)
        (single_counts (record_paper old.switching) (offered_paper lot)
        (judged_on (plan_paper plan) (verdict_paper verdict))) }
{
    let tighter = plans::tighter_ac(plan.letter, lot.column);
    let points = single_points(plan.ac, tighter, verdict.total);
    event_for(old.switching.severity, lot, from, verdict.accepted, points)
}

// .. and one judged on a staged plan.
pub fn staged_event(old: Supply, lot: Offered, verdict: Verdict) -> Event
    ensures { event_paper result ≡ event_for (offered_paper lot) sampled
        (staged_lot (record_paper old.switching) (verdict_paper verdict)) }
{
    let points = staged_points(verdict.stage, verdict.stages);
    event_for(
        old.switching.severity,
        lot,
        Origin::Sampled,
        verdict.accepted,
        points,
    )
}

// A lot that was judged, on whatever plan, enters its record as an event.
pub fn enter<P: Copy>(old: Supply, event: Event, judged: Judged<P>) -> Result<Closed<P>, Refusal>
    ensures { answer_by (closed_by itself) result
        ≡ on_supply (supply_paper old)
        (entered (supply_paper old) (event_paper event) (judged_by itself judged)) }
{
    let supply_after = supply::update(old, event)?;
    Ok(Closed {
        judged,
        event,
        supply_after,
    })
}

// A lot that was judged on a single plan is taken into its record; what refused one, of whatever type, is handed on.
pub fn take_single<E>(
    old: Supply,
    lot: Offered,
    judged: Result<Judged<SinglePlan>, E>,
) -> Result<Result<Closed<SinglePlan>, Refusal>, E>
    ensures { MatchResult judged
        (λ j. IsOkAnd result (λ r. answer_by (closed_by plan_paper) r ≡ on_supply (supply_paper old)
        (closed_with (supply_paper old) (single_event (record_paper old.switching) (offered_paper lot))
        (judged_by plan_paper j))))
        (λ e. result ≡ Err e) }
{
    let judged = judged?;
    let event = single_event(old, lot, Origin::Sampled, judged.plan, judged.verdict);
    Ok(enter(old, event, judged))
}

// The lot as it is asked about, at the present severity.
pub fn asked_on(old: Supply, lot: Offered) -> Asked
    ensures { asked_paper result ≡ asked_on (record_paper old.switching) (offered_paper lot) }
{
    Asked {
        severity: u32::from(old.switching.severity),
        size: lot.size,
        level: lot.level,
        column: lot.column,
    }
}

// 8: "total over n for columns 0 to 15".
fn exceeds_sample(column: u32, n: u16, total: u32) -> bool
    ensures { result ≡ (counts_items column && ltb n total) }
{
    column <= LAST_OF_ITEMS && u32::from(n) < total
}

// A total on a single plan, in place of a sample.
fn judge_on_plan(column: u32, total: u32, plan: SinglePlan) -> Result<Judged<SinglePlan>, Reason>
    ensures { reason_by (judged_by plan_paper) result ≡ total_on column total (plan_paper plan) }
{
    if exceeds_sample(column, plan.n, total) {
        return Err(Reason::IllegalItem);
    }
    let accepted = total <= u32::from(plan.ac);
    let verdict = Verdict::of_one_stage(accepted, u32::from(plan.n), u64::from(total));
    Ok(Judged { plan, verdict })
}

// A lot judged by its total, at a bench without a book.
fn judge_total(lot: Asked, total: u32) -> Result<Judged<SinglePlan>, Reason>
    ensures { reason_by (judged_by plan_paper) result ≡ judge_total (asked_paper lot) total }
{
    judge_on_plan(lot.column, total, plans::table_plan(lot)?)
}

// A single lot closed by its total, at a bench without a book.
pub fn close_total(old: Supply, lot: Offered, total: u32) -> Result<Closed<SinglePlan>, Refusal>
    ensures { answer_by (closed_by plan_paper) result
        ≡ close_total (supply_paper old) (offered_paper lot) total }
{
    if !supply::in_range(old) {
        return Err(Reason::UnknownForm.into());
    }
    take_single(old, lot, judge_total(asked_on(old, lot), total))?
}
