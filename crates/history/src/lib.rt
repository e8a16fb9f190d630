#![tactic(auto)]

// The list of a history's severities, for any work; and a supply's record, lent, that an event moves.
ghost use Rattle.std.specs.Prelude.{◌≡◌};
ghost use Rattle.severity.specs.Paper.{work_paper};
ghost use Rattle.history.specs.Paper.{Lists, Closes};

use refusals::{Reason, Refusal};
use severity::{Event, Work};
use supply::Supply;

// "From a fresh record, the severity after each byte is written to a lent buffer, the rest of which stays", and how
// many there are: the history is walked once to find it good, with the buffer out of reach, and once to write.
pub fn list_severities(work: Work, history: &[u8], out: &mut [u8]) -> Result<usize, Refusal>
    ensures { Lists (work_paper work) history.now out.old out.new result }
{
    let first = severity::fresh(work);
    severity::walk(work, first, history, &mut [])?;
    if out.len() < history.len() {
        return Err(Refusal::from(Reason::BufferShort));
    }
    severity::walk(work, first, history, out)?;
    Ok(history.len())
}

// "The bench keeps one supply record and updates it as each lot closes": the lent form of `update`.
pub fn close_lot(lent: &mut Supply, event: Event) -> Result<Supply, Refusal>
    ensures { Closes lent.old event lent.new result }
{
    let new = supply::update(*lent, event)?;
    *lent = new;
    Ok(new)
}
