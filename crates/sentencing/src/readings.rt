// Does the lot pass by its readings: by the s method or with a known spread, for one limit or two; with the verdict the
// plan that it was judged on.
ghost use Rattle.std.specs.Prelude.{◌≡◌};
ghost use Rattle.refusals.specs.Paper.{answer_by};
ghost use Rattle.rules.specs.Limits.{both, sides_of};
ghost use Rattle.rules.specs.Entries.{judge_limit, judge_sides};
ghost use Rattle.plans.specs.Paper.{asked_paper, judged_by};
ghost use Rattle.entry.specs.Paper.{variables_paper, sides_paper};
ghost use Rattle.gauge.specs.Paper.{spread_paper, is_upper, value_of};
ghost use Rattle.sentencing.specs.Paper.{is_known};

use choosing::{readings_plan, sides_plan};
use entry::{SidesPlan, VariablesPlan};
use gauge::{Limit, Limits, Spread};
use plans::{Asked, Judged};
use refusals::Refusal;

fn is_known(method: Spread) -> bool
    ensures { result ≡ is_known (spread_paper method) }
{
    matches!(method, Spread::Known(_))
}

// For one limit its K stands on both sides.
fn sides_of(plan: VariablesPlan) -> SidesPlan
    ensures { sides_paper result ≡ sides_of (variables_paper plan) }
{
    SidesPlan {
        n: plan.n,
        upper_k: plan.k,
        lower_k: plan.k,
    }
}

// The verdict on readings for an upper or a lower limit, by either method.
pub fn judge_limit(
    method: Spread,
    limit: Limit,
    lot: Asked,
    book: &[u8],
    readings: &[u8],
) -> Result<Judged<VariablesPlan>, Refusal>
    ensures { answer_by (judged_by variables_paper) result
        ≡ judge_limit (spread_paper method) (is_upper limit) (asked_paper lot) book.now (value_of limit)
        readings.now }
{
    let plan = readings_plan(is_known(method), lot, book)?.plan;
    let verdict = gauge::judge_readings(method, Limits::One(limit), sides_of(plan), readings)?;
    Ok(Judged { plan, verdict })
}

// The same for an upper limit under the lot's column and a lower one under another.
pub fn judge_sides(
    method: Spread,
    lot: Asked,
    lower_column: u32,
    book: &[u8],
    upper: i32,
    lower: i32,
    readings: &[u8],
) -> Result<Judged<SidesPlan>, Refusal>
    ensures { answer_by (judged_by sides_paper) result
        ≡ judge_sides (spread_paper method) (both upper lower) (asked_paper lot) lower_column
        book.now readings.now }
{
    let plan = sides_plan(is_known(method), lot, lower_column, book)?;
    let limits = Limits::Both { upper, lower };
    let verdict = gauge::judge_readings(method, limits, plan, readings)?;
    Ok(Judged { plan, verdict })
}
