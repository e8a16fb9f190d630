#![tactic(auto)]

// Samples judged on a plan that is handed over: 16-bit little-endian items of lent bytes.
ghost use Rattle.std.specs.Prelude.{◌≡◌, ◌+◌, ◌*◌, ◌≤◌, ◌<◌, IfOk, length, drop};
ghost use Rattle.rules.specs.Numbers.{numbers_of, half_left};
ghost use Rattle.rules.specs.Codes.{illegal};
ghost use Rattle.rules.specs.Verdict.{ended};
ghost use Rattle.rules.specs.Curtailed.{verdict_after, judge_until_lost};
ghost use Rattle.rules.specs.Staged.{take_items, stage_at, stage_decides, judge_stages};
ghost use Rattle.rules.specs.Sequential.{on_accept_line, on_reject_line, item_decides, judge_sequence};
ghost use Rattle.rules.specs.Entries.{single_sample, curtailed_sample, staged_sample};
ghost use Rattle.refusals.specs.Paper.{reason_by, itself};
ghost use Rattle.plans.specs.Paper.{plan_paper, verdict_paper};
ghost use Rattle.entry.specs.Paper.{staged_paper, sequential_paper};
ghost use Rattle.samples.specs.Paper.{decision_paper, ended_after, column_checked, item_read, taken_answer};
ghost use Rattle.samples.specs.Paper.{stage_paper};

use entry::{SequentialPlan, Stage, StagedPlan};
use plans::{SinglePlan, Verdict};
use refusals::Reason;

// "4: column over 25".
fn check_column(column: u32) -> Result<(), Reason>
    ensures { reason_by itself result ≡ column_checked column }
{
    if plans::LAST_COLUMN < column {
        return Err(Reason::NoSuchColumn);
    }
    Ok(())
}

// A verdict stands where the sample ends at the item or stage that decides; else 7.
#[tactic(auto, using(crate::proofs::Steps::ends))]
fn ended_with(sample: &[u8], v: Verdict) -> Result<Verdict, Reason>
    requires { v.used ≤ length (numbers_of sample.now) }
    ensures { reason_by verdict_paper result ≡ ended_after sample.now v }
{
    let end = 2 * v.used as usize;
    if end < sample.len() {
        return Err(Reason::WrongLength);
    }
    Ok(v)
}

// The two lines, both sides in hundred-thousandths.
// Both counts are small: a type for two counts of items would be no plainer than the fact.
fn on_accept_line(plan: SequentialPlan, n: u64, d: u64) -> bool
    requires { (n < 65536) × (d < 65536) }
    ensures { result ≡ on_accept_line (sequential_paper plan) n d }
{
    let line = plan.g as u64 * n;
    100000 * d + 100 * plan.ha as u64 <= line
}

fn on_reject_line(plan: SequentialPlan, n: u64, d: u64) -> bool
    requires { (n < 65536) × (d < 65536) }
    ensures { result ≡ on_reject_line (sequential_paper plan) n d }
{
    let line = plan.g as u64 * n;
    line + 100 * plan.hr as u64 <= 100000 * d
}

// At the last item nt, At alone decides.
#[tactic(auto, unfolding(rules::specs::Sequential::item_decides))]
fn item_decides(plan: SequentialPlan, n: u64, d: u64) -> Option<bool>
    requires { (n < 65536) × (d < 65536) }
    ensures { decision_paper result ≡ item_decides (sequential_paper plan) n d }
{
    if plan.nt as u64 <= n {
        Some(d <= plan.at_nt as u64)
    } else if on_accept_line(plan, n, d) {
        Some(true)
    } else if on_reject_line(plan, n, d) {
        Some(false)
    } else {
        None
    }
}

// 7 or 8 as the walk meets it, else the verdict; any plan is judged, whether or not a book could hold it.
#[tactic(auto, using(crate::proofs::Steps::sequential_steps))]
pub fn sequential_sample(plan: SequentialPlan, sample: &[u8]) -> Result<Verdict, Reason>
    ensures { reason_by verdict_paper result ≡ judge_sequence (sequential_paper plan) sample.now }
{
    let mut d = 0;
    for i in 0..numbers::count(sample) {
        let x = numbers::number(sample, i);
        if 1 < x {
            return Err(Reason::IllegalItem);
        }
        d += x as u64;
        let n = i as u64 + 1;
        if let Some(accepted) = item_decides(plan, n, d) {
            return ended_with(sample, Verdict::of_one_stage(accepted, n as u32, d));
        }
    }
    Err(Reason::WrongLength)
}

// The item at a place: 7 where there is none, 8 where it is over 1 and items are 0 or 1.
fn item_at(column: u32, sample: &[u8], i: usize) -> Result<u16, Reason>
    ensures { reason_by itself result ≡ item_read column (numbers_of sample.now) i }
{
    if numbers::count(sample) <= i {
        return Err(Reason::WrongLength);
    }
    let item = numbers::number(sample, i);
    if column <= plans::LAST_OF_ITEMS && 1 < item {
        return Err(Reason::IllegalItem);
    }
    Ok(item)
}

// Takes k items from a place on, and adds them to a total.
#[tactic(auto, using(crate::proofs::Steps::taking_steps))]
fn take_items(column: u32, k: usize, total: u64, sample: &[u8], from: usize) -> Result<u64, Reason>
    requires { (k < 65536) × (from ≤ 100000000) × (total < 1099511627776) }
    ensures taken { reason_by itself result
        ≡ taken_answer (take_items column k total (drop from (numbers_of sample.now))) }
    ensures few { IfOk result (λ t. t ≤ total + 65535 * k) }
{
    let mut t = total;
    for i in from..from + k {
        let item = item_at(column, sample, i)?;
        t += item as u64;
    }
    Ok(t)
}

// The verdict on the items read of a single sample, with their total.
fn verdict_after(plan: SinglePlan, read: u16, total: u64) -> Verdict
    ensures { verdict_paper result ≡ verdict_after (plan_paper plan) read total }
{
    Verdict::of_one_stage(total <= plan.ac as u64, read as u32, total)
}

// A single sample, of exactly the plan's n items.
#[tactic(auto, unfolding(rules::specs::Entries::single_sample))]
pub fn single_sample(column: u32, plan: SinglePlan, sample: &[u8]) -> Result<Verdict, Reason>
    ensures { reason_by verdict_paper result ≡ single_sample column (plan_paper plan) sample.now }
{
    check_column(column)?;
    let k = plan.n as usize;
    if sample.len() != 2 * k {
        return Err(Reason::WrongLength);
    }
    let total = take_items(column, k, 0, sample, 0)?;
    Ok(verdict_after(plan, plan.n, total))
}

// The verdict on the items read, where the sample ends with them; else 7.
fn stopped_after(plan: SinglePlan, sample: &[u8], read: u16, total: u64) -> Result<Verdict, Reason>
    requires { read ≤ length (numbers_of sample.now) }
    ensures { reason_by verdict_paper result
        ≡ ended (half_left sample.now) (drop read (numbers_of sample.now))
        (verdict_after (plan_paper plan) read total) }
{
    ended_with(sample, verdict_after(plan, read, total))
}

// "stops at the item where the total passes Ac", else at n: each item is read once.
#[tactic(auto, using(crate::proofs::Steps::curtailed_steps))]
fn curtailed_walk(column: u32, plan: SinglePlan, sample: &[u8]) -> Result<Verdict, Reason>
    ensures { reason_by verdict_paper result ≡ judge_until_lost column (plan_paper plan) sample.now }
{
    let mut total = 0;
    for i in 0..plan.n {
        let item = item_at(column, sample, i as usize)?;
        total += item as u64;
        if total > plan.ac as u64 {
            return stopped_after(plan, sample, i + 1, total);
        }
    }
    stopped_after(plan, sample, plan.n, total)
}

// A curtailed sample: 4, then 7 or 8 as the walk meets it, then the verdict; any plan is judged.
#[tactic(auto, unfolding(rules::specs::Entries::curtailed_sample))]
pub fn curtailed_sample(column: u32, plan: SinglePlan, sample: &[u8]) -> Result<Verdict, Reason>
    ensures { reason_by verdict_paper result ≡ curtailed_sample column (plan_paper plan) sample.now }
{
    check_column(column)?;
    curtailed_walk(column, plan, sample)
}

// As Ac it means no acceptance at that stage.
const MARK: u16 = 65535;

// The stage at a place; past the seventh its numbers are 0.
fn stage_at(plan: &StagedPlan, i: u8) -> Stage
    ensures { stage_paper result ≡ stage_at (staged_paper plan.now) i }
{
    plan.stages.get(i as usize).copied().unwrap_or_default()
}

// "At most Ac accepts, at least Re rejects, else go on"; a mark accepts nothing.
#[tactic(auto, unfolding(rules::specs::Staged::stage_decides))]
fn stage_decides(stage: Stage, total: u64) -> Option<bool>
    ensures { decision_paper result ≡ stage_decides (stage_paper stage) total }
{
    if stage.ac != MARK && total <= stage.ac as u64 {
        Some(true)
    } else if stage.re as u64 <= total {
        Some(false)
    } else {
        None
    }
}

#[tactic(auto, using(crate::proofs::Steps::staged_steps))]
fn staged_walk(column: u32, plan: StagedPlan, sample: &[u8]) -> Result<Verdict, Reason>
    ensures { reason_by verdict_paper result ≡ judge_stages column (staged_paper plan) sample.now }
{
    let mut used = 0;
    let mut total = 0;
    for i in 0..plan.count {
        let stage = stage_at(&plan, i);
        let size = stage.size as usize;
        total = take_items(column, size, total, sample, used)?;
        used += size;
        if let Some(accepted) = stage_decides(stage, total) {
            let v = Verdict {
                accepted,
                used: used as u32,
                total,
                stage: i + 1,
                stages: plan.count,
            };
            return ended_with(sample, v);
        }
    }
    Err(Reason::WrongLength)
}

// 4, then 7 or 8 as the walk meets it, then the verdict; any plan is judged, whether or not a book could hold it.
#[tactic(auto, unfolding(rules::specs::Entries::staged_sample))]
pub fn staged_sample(column: u32, plan: StagedPlan, sample: &[u8]) -> Result<Verdict, Reason>
    ensures { reason_by verdict_paper result ≡ staged_sample column (staged_paper plan) sample.now }
{
    check_column(column)?;
    staged_walk(column, plan, sample)
}
