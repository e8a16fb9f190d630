// Does the lot pass: the verdict on a sample, with the plan that it was judged on.
ghost use Rattle.std.specs.Prelude.{◌≡◌};
ghost use Rattle.refusals.specs.Paper.{answer_by};
ghost use Rattle.rules.specs.Entries.{judge_single, judge_curtailed, judge_staged, judge_sequential};
ghost use Rattle.plans.specs.Paper.{asked_paper, plan_paper, judged_by};
ghost use Rattle.entry.specs.Paper.{staged_paper, sequential_paper};

use choosing::{curtailed_plan, sequential_plan, single_plan, staged_plan};
use entry::{SequentialPlan, StagedPlan};
use plans::{Asked, Judged, SinglePlan};
use refusals::Refusal;

// One judge for each kind of sample: each has a plan and a walk of its own.
// The verdict on a single sample.
pub fn judge_single(lot: Asked, book: &[u8], sample: &[u8]) -> Result<Judged<SinglePlan>, Refusal>
    ensures { answer_by (judged_by plan_paper) result
        ≡ judge_single (asked_paper lot) book.now sample.now }
{
    let plan = single_plan(lot, book)?;
    let verdict = samples::single_sample(lot.column, plan, sample)?;
    Ok(Judged { plan, verdict })
}

// The verdict on a curtailed sample: it ends at the item where its total passes Ac, or at n.
pub fn judge_curtailed(
    lot: Asked,
    book: &[u8],
    sample: &[u8],
) -> Result<Judged<SinglePlan>, Refusal>
    ensures { answer_by (judged_by plan_paper) result
        ≡ judge_curtailed (asked_paper lot) book.now sample.now }
{
    let plan = curtailed_plan(lot, book)?;
    let verdict = samples::curtailed_sample(lot.column, plan, sample)?;
    Ok(Judged { plan, verdict })
}

// The verdict on a staged sample.
pub fn judge_staged(lot: Asked, book: &[u8], sample: &[u8]) -> Result<Judged<StagedPlan>, Refusal>
    ensures { answer_by (judged_by staged_paper) result
        ≡ judge_staged (asked_paper lot) book.now sample.now }
{
    let plan = staged_plan(lot, book)?.plan;
    let verdict = samples::staged_sample(lot.column, plan, sample)?;
    Ok(Judged { plan, verdict })
}

// The verdict on a sequential sample.
pub fn judge_sequential(
    lot: Asked,
    book: &[u8],
    sample: &[u8],
) -> Result<Judged<SequentialPlan>, Refusal>
    ensures { answer_by (judged_by sequential_paper) result
        ≡ judge_sequential (asked_paper lot) book.now sample.now }
{
    let plan = sequential_plan(lot, book)?.plan;
    let verdict = samples::sequential_sample(plan, sample)?;
    Ok(Judged { plan, verdict })
}
