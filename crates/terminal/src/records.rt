// A supply's record in lent bytes: what a history byte or a lot makes of it, and the severities of a history.
ghost use Rattle.std.specs.Prelude.{◌≡◌};
ghost use Rattle.rules.specs.History.{ours};
ghost use Rattle.rules.specs.Entries.{next, close_single, close_curtailed, close_staged, judge_fractional};
ghost use Rattle.rules.specs.Entries.{close_fractional};
ghost use Rattle.rules.specs.Terminal.{supply_in};
ghost use Rattle.terminal.specs.Lent.{offered, once, again, VerdictLeft, ClosedLeft, NextLeft, ListLeft};

use super::telling::{offered, put_back, status, take_up, tell_closed, tell_verdict, wide_status};

// What a history byte makes of a lent record.
#[unsafe(no_mangle)]
pub extern "C" fn hm_next(supply: &mut [u8], event: u32) -> u32
    ensures { NextLeft (next ours (supply_in supply.old) event) result
        supply.old supply.new }
{
    match sentencing::next(take_up(supply), event) {
        Ok(new) => {
            put_back(supply, new);
            0
        }
        Err(refusal) => status(refusal),
    }
}

// A lot closed from a single sample; `resubmitted` 0 is an original lot.
#[unsafe(no_mangle)]
pub extern "C" fn hm_close_single(
    supply: &mut [u8],
    resubmitted: u32,
    size: u32,
    level: u32,
    column: u32,
    book: &[u8],
    sample: &[u8],
    accepted: &mut u8,
    used: &mut u16,
    byte: &mut u8,
) -> u32
    ensures { ClosedLeft
        (close_single (supply_in supply.old) (offered (again resubmitted) size level column)
        book.now sample.now) result
        supply.old supply.new
        accepted.old accepted.new
        used.old used.new
        byte.old byte.new }
{
    let lot = offered(resubmitted, size, level, column);
    let closed = sentencing::close_single(take_up(supply), lot, book, sample);
    tell_closed(closed, supply, accepted, used, byte)
}

// A lot closed from a curtailed sample; `resubmitted` 0 is an original lot.
#[unsafe(no_mangle)]
pub extern "C" fn hm_close_curtailed(
    supply: &mut [u8],
    resubmitted: u32,
    size: u32,
    level: u32,
    column: u32,
    book: &[u8],
    sample: &[u8],
    accepted: &mut u8,
    used: &mut u16,
    byte: &mut u8,
) -> u32
    ensures { ClosedLeft
        (close_curtailed (supply_in supply.old) (offered (again resubmitted) size level column)
        book.now sample.now) result
        supply.old supply.new
        accepted.old accepted.new
        used.old used.new
        byte.old byte.new }
{
    let lot = offered(resubmitted, size, level, column);
    let closed = sentencing::close_curtailed(take_up(supply), lot, book, sample);
    tell_closed(closed, supply, accepted, used, byte)
}

// A lot closed from a staged sample; `resubmitted` 0 is an original lot.
#[unsafe(no_mangle)]
pub extern "C" fn hm_close_staged(
    supply: &mut [u8],
    resubmitted: u32,
    size: u32,
    level: u32,
    column: u32,
    book: &[u8],
    sample: &[u8],
    accepted: &mut u8,
    used: &mut u16,
    byte: &mut u8,
) -> u32
    ensures { ClosedLeft
        (close_staged (supply_in supply.old) (offered (again resubmitted) size level column)
        book.now sample.now) result
        supply.old supply.new
        accepted.old accepted.new
        used.old used.new
        byte.old byte.new }
{
    let lot = offered(resubmitted, size, level, column);
    let closed = sentencing::close_staged(take_up(supply), lot, book, sample);
    tell_closed(closed, supply, accepted, used, byte)
}

// The verdict in the mode of fractions, by a lent record that stays as it is.
#[unsafe(no_mangle)]
pub extern "C" fn hm_fractional(
    supply: &[u8],
    size: u32,
    level: u32,
    column: u32,
    book: &[u8],
    sample: &[u8],
    accepted: &mut u8,
    used: &mut u16,
) -> u32
    ensures { VerdictLeft
        (judge_fractional (supply_in supply.now) (once size level column)
        book.now sample.now) result
        accepted.old accepted.new
        used.old used.new }
{
    let lot = offered(0, size, level, column);
    let judged = sentencing::judge_fractional(take_up(supply), lot, book, sample);
    tell_verdict(judged, accepted, used)
}

// A lot closed in the mode of fractions; `resubmitted` 0 is an original lot.
#[unsafe(no_mangle)]
pub extern "C" fn hm_close_fractional(
    supply: &mut [u8],
    resubmitted: u32,
    size: u32,
    level: u32,
    column: u32,
    book: &[u8],
    sample: &[u8],
    accepted: &mut u8,
    used: &mut u16,
    byte: &mut u8,
) -> u32
    ensures { ClosedLeft
        (close_fractional (supply_in supply.old) (offered (again resubmitted) size level column)
        book.now sample.now) result
        supply.old supply.new
        accepted.old accepted.new
        used.old used.new
        byte.old byte.new }
{
    let lot = offered(resubmitted, size, level, column);
    let closed = sentencing::close_fractional(take_up(supply), lot, book, sample);
    tell_closed(closed, supply, accepted, used, byte)
}

// The severities of a history, exactly as many as it has bytes.
#[unsafe(no_mangle)]
pub extern "C" fn hm_list(history: &[u8], severities: &mut [u8]) -> u64
    ensures { ListLeft history.now result severities.old severities.new }
{
    match sentencing::list_severities(history, severities) {
        Ok(_) => 0,
        Err(refusal) => wide_status(refusal),
    }
}
