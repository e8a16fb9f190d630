#![tactic(auto)]

// Document 01, 'Variables, s method', and document 02, T-07: the verdict on readings, and the screen.
ghost use Rattle.std.specs.Prelude.{◌≡◌, true, false, ◌*◌, ◌/◌, ◌≤◌, ◌&&◌, pos, ◌-ℤ◌, length, MatchResult};
ghost use Rattle.rules.specs.Variables.{in_gauge, all_in_gauge, readings_of, spread, margin, within_spread};
ghost use Rattle.rules.specs.Limits.{side_of, within_sigma, spread_in, limits_in};
ghost use Rattle.rules.specs.PlanRules.{VariablesRight};
ghost use Rattle.rules.specs.Screen.{quotient, shown_of};
ghost use Rattle.rules.specs.Screen as screens;
ghost use Rattle.rules.specs.Entries.{readings_sample};
ghost use Rattle.refusals.specs.Paper.{reason_by};
ghost use Rattle.gauge.specs.Raised.{sum_from, squares_from, Passed, within_by, JudgesSide, limits_from};
ghost use Rattle.gauge.specs.Paper.{shown_paper, spread_paper, limits_paper, is_upper, value_of, sides_held};
ghost use Rattle.plans.specs.Paper.{verdict_paper};
ghost use Rattle.entry.specs.Paper.{sides_paper};

use entry::{SidesPlan, VariablesPlan};
use plans::Verdict;
use refusals::Reason;

// What the screen shows. A single reading has a mean and no variance.
#[derive(Clone, Copy)]
pub struct Shown {
    pub mean: f64,
    pub variance: Option<f64>,
}

// How the spread is had: from the readings, by the s method; or it is known, in thousandths of a gauge unit.
#[derive(Clone, Copy)]
pub enum Spread {
    Estimated,
    Known(u32),
}

// A limit, in gauge units from nominal.
#[derive(Clone, Copy)]
pub enum Limit {
    Upper(i32),
    Lower(i32),
}

// The limits of a drawing.
#[derive(Clone, Copy)]
pub enum Limits {
    One(Limit),
    Both { upper: i32, lower: i32 },
}

// A reading of -1,000 and one of 1,000, raised to natural numbers.
const LOWEST: u16 = 31768;

const HIGHEST: u16 = 33768;

// How many readings there are, the sum of them plus 1,000 each, and that of the squares of those.
#[derive(Clone, Copy)]
struct Sums {
    n: u64,
    t: u64,
    q: u64,
    ghost few: { (1 ≤ n) × (n ≤ 50) },
    ghost small: { (t ≤ 100000) × (q ≤ 200000000) },
}

// The K of a side, and its margin: high - low.
#[derive(Clone, Copy)]
struct Margin {
    k: u64,
    high: u64,
    low: u64,
    ghost small: { (k ≤ 4000) × (high ≤ 100000) × (low ≤ 100000) },
}

// A method and limits that are in range.
#[derive(Clone, Copy)]
struct Drawing {
    method: Spread,
    limits: Limits,
    ghost in_range: { (spread_in (spread_paper method) ≡ true) × (limits_in (limits_paper limits) ≡ true) },
}

fn square(x: u64) -> u64
    requires { x ≤ 100000 }
    ensures { (result ≡ x * x) × (result ≤ 10000000000) }
{
    x * x
}

#[tactic(auto, unfolding(rules::specs::Variables::in_gauge))]
fn in_gauge(limit: i32) -> bool
    ensures { result ≡ in_gauge limit }
{
    -1000 <= limit && limit <= 1000
}

#[tactic(auto, unfolding(rules::specs::Variables::in_gauge))]
fn raised(limit: i32) -> u64
    requires { in_gauge limit ≡ true }
    ensures { (limit ≡ pos result -ℤ pos 1000) × (result ≤ 2000) }
{
    (limit + 1000) as u64
}

impl Limit {
    fn value(self) -> i32
        ensures { result ≡ value_of self }
    {
        match self {
            Limit::Upper(value) => value,
            Limit::Lower(value) => value,
        }
    }
}

// (a - b) / d: one rounded division of whole numbers that are converted without loss.
#[tactic(auto, unfolding(rules::specs::Screen::quotient))]
fn ratio(a: u64, b: u64, d: u64) -> f64
    requires { (a ≤ 10000000000) × (b ≤ 10000000000) × (d ≤ 2450) }
    ensures { result ≡ quotient (pos a -ℤ pos b) d }
{
    let z = (a as i64) - (b as i64);
    (z as f64) / (d as f64)
}

impl Sums {
    // One pass, which ends at a reading out of range.
    fn of(s: &[u8]) -> Result<Sums, Reason>
        requires { (2 ≤ length s.now) × (length s.now ≤ 100) }
        ensures { MatchResult result (λ sums. Passed s.now sums.n sums.t sums.q)
            (λ reason. (reason ≡ Reason.OutOfRange) × (all_in_gauge (readings_of s.now) ≡ false)) }
    {
        let n = numbers::count(s);
        let mut t: u64 = 0;
        let mut q: u64 = 0;
        for i in 0..n {
            let v = numbers::raised_reading(s, i);
            if v < LOWEST || HIGHEST < v {
                return Err(Reason::OutOfRange);
            }
            let x = (v - LOWEST) as u64;
            let y = square(x);
            t += x;
            q += y;
        }
        Ok(Sums { n: n as u64, t, q })
    }

    // What the screen shows of them.
    #[tactic(auto, unfolding(rules::specs::Screen::shown_of))]
    fn shown(self) -> Shown
        ensures { shown_paper result
            ≡ shown_of self.n (sum_from self.n self.t) (squares_from self.n self.t self.q) }
    {
        let n = self.n;
        let mean = ratio(self.t, 1000 * n, n);
        if n == 1 {
            return Shown {
                mean,
                variance: None,
            };
        }
        let variance = ratio(n * self.q, square(self.t), n * (n - 1));
        Shown {
            mean,
            variance: Some(variance),
        }
    }
}

impl Margin {
    // Of an upper limit, n times the limit less the readings; of a lower one, the readings less n times the limit.
    fn of(limit: Limit, plan: SidesPlan, sums: Sums) -> Margin
        requires right { VariablesRight (side_of (is_upper limit) (sides_paper plan)) }
        requires in_range { in_gauge (value_of limit) ≡ true }
        ensures measured { (result.k ≡ (side_of (is_upper limit) (sides_paper plan)).k)
            × (pos result.high -ℤ pos result.low
            ≡ margin (is_upper limit) sums.n (sum_from sums.n sums.t) (value_of limit)) }
        ensures side { JudgesSide (is_upper limit) sums.n result.k (value_of limit) sums.t sums.q
            (pos result.high -ℤ pos result.low) }
    {
        let at_limit = sums.n * raised(limit.value());
        match limit {
            Limit::Upper(_) => Margin {
                k: plan.upper_k as u64,
                high: at_limit,
                low: sums.t,
            },
            Limit::Lower(_) => Margin {
                k: plan.lower_k as u64,
                high: sums.t,
                low: at_limit,
            },
        }
    }

    // The two tests of the s method.
    fn passes(self, sums: Sums) -> bool
        ensures { result
            ≡ within_spread sums.n self.k (pos self.high -ℤ pos self.low)
            (spread sums.n (sum_from sums.n sums.t) (squares_from sums.n sums.t sums.q)) }
    {
        if self.high < self.low {
            return false; // a negative margin, which its square would hide
        }
        let n = sums.n;
        let d = square(self.high - self.low);
        let tt = square(sums.t);
        let w = self.k * self.k * n;
        w * (n * sums.q) <= 1000000 * d * (n - 1) + w * tt
    }

    // The test with a known spread: "1,000,000 (nU − S) ≥ K · sigma · n".
    fn passes_known(self, n: u64, sigma: u64) -> bool
        requires { (n ≤ 50) × (sigma ≤ 1000) }
        ensures { result ≡ within_sigma n self.k sigma (pos self.high -ℤ pos self.low) }
    {
        self.k * sigma * n + 1000000 * self.low <= 1000000 * self.high
    }
}

// "sigma is a whole number 1 to 1,000".
#[tactic(auto, unfolding(rules::specs::Limits::spread_in))]
fn spread_in(method: Spread) -> bool
    ensures { result ≡ spread_in (spread_paper method) }
{
    match method {
        Spread::Estimated => true,
        Spread::Known(sigma) => 1 <= sigma && sigma <= 1000,
    }
}

// Limits are in range, and of two the lower is below the upper.
#[tactic(auto, unfolding(rules::specs::Limits::limits_in))]
fn limits_in(limits: Limits) -> bool
    ensures { result ≡ limits_in (limits_paper limits) }
{
    match limits {
        Limits::One(limit) => in_gauge(limit.value()),
        Limits::Both { upper, lower } => in_gauge(upper) && in_gauge(lower) && lower < upper,
    }
}

impl Drawing {
    fn of(method: Spread, limits: Limits) -> Result<Drawing, Reason>
        ensures { MatchResult result (λ drawing. (drawing.method ≡ method) × (drawing.limits ≡ limits))
            (λ reason. (reason ≡ Reason.OutOfRange)
            × ((spread_in (spread_paper method) && limits_in (limits_paper limits)) ≡ false)) }
    {
        if spread_in(method) && limits_in(limits) {
            return Ok(Drawing { method, limits });
        }
        Err(Reason::OutOfRange)
    }

    // The test of the method.
    fn passes(self, margin: Margin, sums: Sums) -> bool
        ensures { result
            ≡ within_by (spread_paper self.method) sums.n margin.k (pos margin.high -ℤ pos margin.low)
            (spread sums.n (sum_from sums.n sums.t) (squares_from sums.n sums.t sums.q)) }
    {
        match self.method {
            Spread::Estimated => margin.passes(sums),
            Spread::Known(sigma) => margin.passes_known(sums.n, sigma as u64),
        }
    }

    // Of two limits, "accept only if both sides accept".
    #[tactic(auto, unfolding(rules::specs::Limits::limits_in))]
    fn accepts(self, plan: SidesPlan, sums: Sums) -> bool
        requires upper { VariablesRight (side_of true (sides_paper plan)) }
        requires lower { VariablesRight (side_of false (sides_paper plan)) }
        requires drawn { sums.n ≡ plan.n }
        ensures { result
            ≡ limits_from (spread_paper self.method) (limits_paper self.limits) (sides_paper plan) sums.t sums.q }
    {
        match self.limits {
            Limits::One(limit) => self.passes(Margin::of(limit, plan, sums), sums),
            Limits::Both { upper, lower } => {
                self.passes(Margin::of(Limit::Upper(upper), plan, sums), sums)
                    && self.passes(Margin::of(Limit::Lower(lower), plan, sums), sums)
            }
        }
    }
}

// Could a sound book hold the plan of each side?
fn sides_hold(plan: SidesPlan) -> bool
    ensures { result ≡ sides_held (sides_paper plan) }
{
    let upper = VariablesPlan {
        n: plan.n,
        k: plan.upper_k,
    };
    let lower = VariablesPlan {
        n: plan.n,
        k: plan.lower_k,
    };
    entry::variables_holds(upper) && entry::variables_holds(lower)
}

// The verdict on a sample of readings, each a 16-bit number in two's complement, by either method, for one limit or
// two. A plan that no sound book could hold is refused: a book's ranges keep the products within 64 bits.
#[tactic(auto, unfolding(rules::specs::Entries::readings_sample, rules::specs::Limits::judge_readings))]
pub fn judge_readings(
    method: Spread,
    limits: Limits,
    plan: SidesPlan,
    readings: &[u8],
) -> Result<Verdict, Reason>
    ensures { reason_by verdict_paper result
        ≡ readings_sample (spread_paper method) (limits_paper limits) (sides_paper plan) readings.now }
{
    if !sides_hold(plan) {
        return Err(Reason::NoPlan);
    }
    if readings.len() as u64 != 2 * (plan.n as u64) {
        return Err(Reason::WrongLength);
    }
    let sums = Sums::of(readings)?;
    let drawing = Drawing::of(method, limits)?;
    let accepted = drawing.accepts(plan, sums);
    Ok(Verdict::of_one_stage(accepted, plan.n as u32, 0))
}

// What the screen shows of 1 to 50 readings.
#[tactic(auto, unfolding(rules::specs::Screen::screen))]
pub fn screen(readings: &[u8]) -> Result<Shown, Reason>
    ensures { reason_by shown_paper result ≡ screens.screen readings.now }
{
    let len = readings.len();
    if len % 2 == 1 || len == 0 || 100 < len {
        return Err(Reason::WrongLength);
    }
    let sums = Sums::of(readings)?;
    Ok(sums.shown())
}
