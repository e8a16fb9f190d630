#![tactic(auto)]

// What the bench calls: which plan, does the lot pass, what next.
ghost use Rattle.std.specs.Prelude.{◌≡◌};
ghost use Rattle.refusals.specs.Paper.{answer_by};
ghost use Rattle.rules.specs.History.{ours};
ghost use Rattle.rules.specs.Entries.{next};
ghost use Rattle.supply.specs.Paper.{supply_paper};
ghost use Rattle.history.specs.Paper.{Lists};

mod closings;
mod fractional;
mod judging;
mod readings;

pub use book::check_book;
pub use choosing::{Lettered, sequential_plan, single_plan, staged_plan, variables_plan};
pub use closing::close_total;
pub use closings::{close_curtailed, close_single, close_staged};
pub use fractional::{close_fractional, fractional_plan, judge_fractional};
pub use gauge::screen;
pub use history::close_lot;
pub use judging::{judge_curtailed, judge_sequential, judge_single, judge_staged};
pub use readings::{judge_limit, judge_sides};
use refusals::Refusal;
pub use showing::{count_entries, read_entry};
use supply::Supply;
pub use writing::write_book;

// What a history byte makes of a supply.
pub fn next(old: Supply, byte: u32) -> Result<Supply, Refusal>
    ensures { answer_by supply_paper result ≡ next ours (supply_paper old) byte }
{
    supply::next(severity::ours(), old, byte)
}

// "From a fresh record, the severity after each byte is written to a lent buffer, the rest of which stays."
pub fn list_severities(history: &[u8], out: &mut [u8]) -> Result<usize, Refusal>
    ensures { Lists ours history.now out.old out.new result }
{
    history::list_severities(severity::ours(), history, out)
}
