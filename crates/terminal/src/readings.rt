// The verdict on readings: by the s method or with a known spread, for one limit or two.
ghost use Rattle.std.specs.Prelude.{true, false};
ghost use Rattle.rules.specs.Limits.{estimated, known, both};
ghost use Rattle.rules.specs.Entries.{judge_limit, judge_sides};
ghost use Rattle.terminal.specs.Lent.{asked, VerdictLeft};

use super::telling::{asked, tell_verdict};
use gauge::{Limit, Spread};

// The verdict on readings by the s method, for an upper limit.
#[unsafe(no_mangle)]
pub extern "C" fn hm_variables_upper(
    size: u32,
    level: u32,
    column: u32,
    severity: u32,
    book: &[u8],
    readings: &[u8],
    limit: i32,
    accepted: &mut u8,
    used: &mut u16,
) -> u32
    ensures { VerdictLeft
        (judge_limit estimated true (asked severity size level column) book.now limit
        readings.now) result
        accepted.old accepted.new
        used.old used.new }
{
    let lot = asked(severity, size, level, column);
    let limit = Limit::Upper(limit);
    let judged = sentencing::judge_limit(Spread::Estimated, limit, lot, book, readings);
    tell_verdict(judged, accepted, used)
}

// The verdict on readings by the s method, for a lower limit.
#[unsafe(no_mangle)]
pub extern "C" fn hm_variables_lower(
    size: u32,
    level: u32,
    column: u32,
    severity: u32,
    book: &[u8],
    readings: &[u8],
    limit: i32,
    accepted: &mut u8,
    used: &mut u16,
) -> u32
    ensures { VerdictLeft
        (judge_limit estimated false (asked severity size level column) book.now limit
        readings.now) result
        accepted.old accepted.new
        used.old used.new }
{
    let lot = asked(severity, size, level, column);
    let limit = Limit::Lower(limit);
    let judged = sentencing::judge_limit(Spread::Estimated, limit, lot, book, readings);
    tell_verdict(judged, accepted, used)
}

// The verdict on readings by the s method, for two limits.
#[unsafe(no_mangle)]
pub extern "C" fn hm_variables_both(
    size: u32,
    level: u32,
    upper_column: u32,
    lower_column: u32,
    severity: u32,
    book: &[u8],
    readings: &[u8],
    upper: i32,
    lower: i32,
    accepted: &mut u8,
    used: &mut u16,
) -> u32
    ensures { VerdictLeft
        (judge_sides estimated (both upper lower) (asked severity size level upper_column) lower_column
        book.now readings.now) result
        accepted.old accepted.new
        used.old used.new }
{
    let lot = asked(severity, size, level, upper_column);
    let judged = sentencing::judge_sides(
        Spread::Estimated,
        lot,
        lower_column,
        book,
        upper,
        lower,
        readings,
    );
    tell_verdict(judged, accepted, used)
}

// The verdict on readings with a known spread, for an upper limit.
#[unsafe(no_mangle)]
pub extern "C" fn hm_sigma_upper(
    size: u32,
    level: u32,
    column: u32,
    severity: u32,
    book: &[u8],
    readings: &[u8],
    limit: i32,
    sigma: u32,
    accepted: &mut u8,
    used: &mut u16,
) -> u32
    ensures { VerdictLeft
        (judge_limit (known sigma) true (asked severity size level column) book.now limit
        readings.now) result
        accepted.old accepted.new
        used.old used.new }
{
    let lot = asked(severity, size, level, column);
    let limit = Limit::Upper(limit);
    let judged = sentencing::judge_limit(Spread::Known(sigma), limit, lot, book, readings);
    tell_verdict(judged, accepted, used)
}

// The verdict on readings with a known spread, for a lower limit.
#[unsafe(no_mangle)]
pub extern "C" fn hm_sigma_lower(
    size: u32,
    level: u32,
    column: u32,
    severity: u32,
    book: &[u8],
    readings: &[u8],
    limit: i32,
    sigma: u32,
    accepted: &mut u8,
    used: &mut u16,
) -> u32
    ensures { VerdictLeft
        (judge_limit (known sigma) false (asked severity size level column) book.now limit
        readings.now) result
        accepted.old accepted.new
        used.old used.new }
{
    let lot = asked(severity, size, level, column);
    let limit = Limit::Lower(limit);
    let judged = sentencing::judge_limit(Spread::Known(sigma), limit, lot, book, readings);
    tell_verdict(judged, accepted, used)
}

// The verdict on readings with a known spread, for two limits.
#[unsafe(no_mangle)]
pub extern "C" fn hm_sigma_both(
    size: u32,
    level: u32,
    upper_column: u32,
    lower_column: u32,
    severity: u32,
    book: &[u8],
    readings: &[u8],
    upper: i32,
    lower: i32,
    sigma: u32,
    accepted: &mut u8,
    used: &mut u16,
) -> u32
    ensures { VerdictLeft
        (judge_sides (known sigma) (both upper lower) (asked severity size level upper_column) lower_column
        book.now readings.now) result
        accepted.old accepted.new
        used.old used.new }
{
    let lot = asked(severity, size, level, upper_column);
    let judged = sentencing::judge_sides(
        Spread::Known(sigma),
        lot,
        lower_column,
        book,
        upper,
        lower,
        readings,
    );
    tell_verdict(judged, accepted, used)
}
