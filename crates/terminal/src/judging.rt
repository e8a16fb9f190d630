// The verdict on a sample of items: accepted or not, and the items used; and the screen.
ghost use Rattle.rules.specs.Screen.{screen};
ghost use Rattle.rules.specs.Entries.{judge_single, judge_curtailed, judge_staged, judge_sequential};
ghost use Rattle.terminal.specs.Lent.{asked, VerdictLeft, ScreenLeft};

use super::telling::{asked, status, tell_verdict};

// The verdict on a single sample.
#[unsafe(no_mangle)]
pub extern "C" fn hm_single(
    size: u32,
    level: u32,
    column: u32,
    severity: u32,
    book: &[u8],
    sample: &[u8],
    accepted: &mut u8,
    used: &mut u16,
) -> u32
    ensures { VerdictLeft
        (judge_single (asked severity size level column) book.now sample.now) result
        accepted.old accepted.new
        used.old used.new }
{
    let lot = asked(severity, size, level, column);
    tell_verdict(sentencing::judge_single(lot, book, sample), accepted, used)
}

// The verdict on a curtailed sample: it ends at the item where its total passes Ac, or at n.
#[unsafe(no_mangle)]
pub extern "C" fn hm_curtailed(
    size: u32,
    level: u32,
    column: u32,
    severity: u32,
    book: &[u8],
    sample: &[u8],
    accepted: &mut u8,
    used: &mut u16,
) -> u32
    ensures { VerdictLeft
        (judge_curtailed (asked severity size level column) book.now sample.now) result
        accepted.old accepted.new
        used.old used.new }
{
    let lot = asked(severity, size, level, column);
    tell_verdict(
        sentencing::judge_curtailed(lot, book, sample),
        accepted,
        used,
    )
}

// The verdict on a staged sample.
#[unsafe(no_mangle)]
pub extern "C" fn hm_staged(
    size: u32,
    level: u32,
    column: u32,
    severity: u32,
    book: &[u8],
    sample: &[u8],
    accepted: &mut u8,
    used: &mut u16,
) -> u32
    ensures { VerdictLeft
        (judge_staged (asked severity size level column) book.now sample.now) result
        accepted.old accepted.new
        used.old used.new }
{
    let lot = asked(severity, size, level, column);
    tell_verdict(sentencing::judge_staged(lot, book, sample), accepted, used)
}

// The verdict on a sequential sample.
#[unsafe(no_mangle)]
pub extern "C" fn hm_sequential(
    size: u32,
    level: u32,
    column: u32,
    severity: u32,
    book: &[u8],
    sample: &[u8],
    accepted: &mut u8,
    used: &mut u16,
) -> u32
    ensures { VerdictLeft
        (judge_sequential (asked severity size level column) book.now sample.now) result
        accepted.old accepted.new
        used.old used.new }
{
    let lot = asked(severity, size, level, column);
    tell_verdict(
        sentencing::judge_sequential(lot, book, sample),
        accepted,
        used,
    )
}

// What the screen shows; `both` is 1 where there is a variance.
#[unsafe(no_mangle)]
pub extern "C" fn hm_screen(
    readings: &[u8],
    mean: &mut f64,
    variance: &mut f64,
    both: &mut u8,
) -> u32
    ensures { ScreenLeft (screen readings.now) result
        mean.old mean.new
        variance.old variance.new
        both.old both.new }
{
    match gauge::screen(readings) {
        Ok(shown) => {
            *mean = shown.mean;
            *both = u8::from(shown.variance.is_some());
            if let Some(squared) = shown.variance {
                *variance = squared;
            }
            0
        }
        Err(reason) => status(reason.into()),
    }
}
