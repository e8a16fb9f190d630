// What a C caller is told: a status, a verdict, a lot closed, and the record in lent bytes.
ghost use Rattle.std.specs.Prelude.{◌≡◌, ◌+◌, ◌*◌, ◌≤◌, min, length};
ghost use Rattle.rules.specs.Terminal.{record_bytes, largest_place, bytes_of, out_of_form, supply_in};
ghost use Rattle.refusals.specs.Paper.{answer_by, number_of, itself};
ghost use Rattle.plans.specs.Paper.{asked_paper, judged_by};
ghost use Rattle.supply.specs.Paper.{supply_paper};
ghost use Rattle.closing.specs.Paper.{offered_paper, closed_by};
ghost use Rattle.terminal.specs.Lent.{asked, offered, again, VerdictFits, VerdictLeft, ClosedFits, ClosedLeft};

use closing::{Closed, Offered};
use plans::{Asked, Judged};
use refusals::Refusal;
use severity::Record;
use supply::{CleanRun, Supply};

// A place of 56 bits: the most that a status of 64 tells.
const LARGEST_PLACE: u64 = u64::MAX >> 8;

// The lot that a call asks about.
pub(crate) fn asked(severity: u32, size: u32, level: u32, column: u32) -> Asked
    ensures { asked_paper result ≡ asked severity size level column }
{
    Asked {
        severity,
        size,
        level,
        column,
    }
}

// The lot that a call closes; `resubmitted` 0 is an original lot.
pub(crate) fn offered(resubmitted: u32, size: u32, level: u32, column: u32) -> Offered
    ensures { offered_paper result ≡ offered (again resubmitted) size level column }
{
    Offered {
        again: resubmitted != 0,
        size,
        level,
        column,
    }
}

// A refusal's status: its number in the low byte, its place above it.
pub(crate) fn status(refusal: Refusal) -> u32
    requires { refusal.place ≤ 32768 }
    ensures { result ≡ number_of refusal.reason + 256 * refusal.place }
{
    refusal.reason.number() as u32 + 256 * (refusal.place as u32)
}

// The same in 64 bits, of a history of any length: a place past 56 bits is told as the last.
pub(crate) fn wide_status(refusal: Refusal) -> u64
    ensures { result ≡ number_of refusal.reason + 256 * min refusal.place largest_place }
{
    let place = (refusal.place as u64).min(LARGEST_PLACE);
    refusal.reason.number() as u64 + 256 * place
}

// A verdict: accepted or not, and the items or readings used.
pub(crate) fn tell_verdict<P: Copy>(
    answer: Result<Judged<P>, Refusal>,
    accepted: &mut u8,
    used: &mut u16,
) -> u32
    requires { VerdictFits (answer_by (judged_by itself) answer) }
    ensures { VerdictLeft (answer_by (judged_by itself) answer) result
        accepted.old accepted.new
        used.old used.new }
{
    match answer {
        Ok(judged) => {
            *accepted = u8::from(judged.verdict.accepted);
            *used = judged.verdict.used as u16;
            0
        }
        Err(refusal) => status(refusal),
    }
}

// What bytes of another length or form are read as: a record out of range.
fn out_of_form() -> Supply
    ensures { supply_paper result ≡ out_of_form }
{
    let switching = Record {
        severity: 4,
        ..Record::default()
    };
    Supply {
        switching,
        clean: CleanRun::default(),
    }
}

// The record that lent bytes hold.
#[tactic(auto, unfolding(rules::specs::Terminal::supply_in, rules::specs::Terminal::has_form))]
pub(crate) fn take_up(bytes: &[u8]) -> Supply
    ensures { supply_paper result ≡ supply_in bytes.now }
{
    match *bytes {
        [
            severity,
            score,
            run,
            count,
            window,
            steady,
            permission,
            clean_run,
            letter,
            column,
        ] if steady <= 1 && permission <= 1 => {
            let switching = Record {
                severity,
                score,
                run,
                count,
                window,
                steady: steady == 1,
                permission: permission == 1,
            };
            let clean = CleanRun {
                run: clean_run,
                letter,
                column,
            };
            Supply { switching, clean }
        }
        _ => out_of_form(),
    }
}

pub(crate) fn put_back(bytes: &mut [u8], new: Supply)
    requires { length bytes.old ≡ record_bytes }
    ensures { bytes.new ≡ bytes_of (supply_paper new) }
{
    let Supply { switching, clean } = new;
    bytes.copy_from_slice(&[
        switching.severity,
        switching.score,
        switching.run,
        switching.count,
        switching.window,
        u8::from(switching.steady),
        u8::from(switching.permission),
        clean.run,
        clean.letter,
        clean.column,
    ]);
}

// A lot closed: the next record, the verdict, and the history byte that the lot stands for.
pub(crate) fn tell_closed<P: Copy>(
    answer: Result<Closed<P>, Refusal>,
    supply: &mut [u8],
    accepted: &mut u8,
    used: &mut u16,
    byte: &mut u8,
) -> u32
    requires { ClosedFits (answer_by (closed_by itself) answer) supply.old }
    ensures { ClosedLeft (answer_by (closed_by itself) answer) result
        supply.old supply.new
        accepted.old accepted.new
        used.old used.new
        byte.old byte.new }
{
    match answer {
        Ok(closed) => {
            put_back(supply, closed.supply_after);
            *accepted = u8::from(closed.judged.verdict.accepted);
            *used = closed.judged.verdict.used as u16;
            *byte = severity::byte_of(closed.event);
            0
        }
        Err(refusal) => status(refusal),
    }
}
