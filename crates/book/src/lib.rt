#![tactic(auto)]

// The plan book of document 01, with document 02's fifth section. One pass checks it, section by section, and finds the
// entry under a key on the way.
ghost use Rattle.std.specs.Prelude.{◌≡◌, ◌+◌, ◌*◌, ◌≤◌, Option, Some, None, cond, length, drop};
ghost use Rattle.rules.specs.Refusals.{given};
ghost use Rattle.rules.specs.Numbers.{numbers_of};
ghost use Rattle.rules.specs.Book.{kinds, kind_at, shift, check_book, on_sound};
ghost use Rattle.rules.specs.Layout.{entry_at, section_at};
ghost use Rattle.refusals.specs.Paper.{answer_by, itself};
ghost use Rattle.entry.specs.Paper.{walk_paper, key_paper};
ghost use Rattle.book.specs.Places.{or_else, under_at, section_place, place_of, place_held, place_laid, laid_place};
ghost use Rattle.book.specs.Places.{from_place};
ghost use Rattle.book.specs.Paper.{entry_after, SectionRead, is_absent, has_none, BookRead};

use entry::{Fault, Key};
use refusals::{Reason, Refusal};

pub const LARGEST_BOOK: usize = 32768;

// How many sections every book has; the fifth it may have.
const ALWAYS: usize = 4;

// Where the sections read so far end, and the entry under the key, as places in the book.
#[derive(Clone, Copy)]
struct Section {
    end: usize,
    seen: Option<usize>,
}

// The end of the entry at a place, after the one that stands from prev up to it; the first has none before it.
// The place is in the book: a type for a book and a place would be no plainer than the fact.
#[tactic(auto, using(crate::proofs::Bounds::bounds))]
fn entry_at(kind: usize, book: &[u8], prev: usize, at: usize) -> Result<usize, Fault>
    requires { (prev ≤ at) × (at ≤ length (numbers_of book.now)) }
    ensures { walk_paper result ≡ shift at (entry_after kind prev at (numbers_of book.now)) }
{
    let back = 2 * prev;
    let from = 2 * at;
    match entry::walk_entry(kind, &book[back..from], &book[from..]) {
        Ok(size) => Ok(at + size),
        Err(Fault::Broken(p)) => Err(Fault::Broken(at + p)),
        Err(Fault::Short) => Err(Fault::Short),
    }
}

// The first entry under the key: the one seen before, or the one at a place.
#[tactic(auto, using(crate::proofs::Bounds::bounds))]
fn first_under(kind: usize, key: Key, book: &[u8], seen: Option<usize>, at: usize) -> Option<usize>
    requires { at ≤ length (numbers_of book.now) }
    ensures { result ≡ or_else seen (cond (under_at kind key at (numbers_of book.now)) (Some at) None) }
{
    let from = 2 * at;
    match seen {
        Some(_) => seen,
        None => entry::is_under(kind, key, &book[from..]).then_some(at),
    }
}

// The section that starts at a place.
fn check_section(kind: usize, key: Key, book: &[u8], start: usize) -> Result<Section, Fault>
    requires { start ≤ length (numbers_of book.now) }
    ensures { SectionRead kind key start (numbers_of book.now) result }
{
    if numbers::count(book) <= start {
        return Err(Fault::Short);
    }
    let entries = numbers::number(book, start);
    let mut prev = start + 1;
    let mut at = prev;
    let mut seen = None;
    for _i in 0..entries {
        let end = entry_at(kind, book, prev, at)?;
        seen = first_under(kind, key, book, seen, at);
        prev = at;
        at = end;
    }
    Ok(Section { end: at, seen })
}

// Does the book end before the section? Only the fifth can be missing. (Joined by &: no branch at each section.)
fn is_absent(kind: usize, part: &[u8]) -> bool
    ensures { result ≡ is_absent kind part.now }
{
    (kind == ALWAYS) & part.is_empty()
}

// Is it a fifth section with a count of 0?
fn has_none(kind: usize, part: &[u8]) -> bool
    ensures { result ≡ has_none kind (numbers_of part.now) }
{
    (kind == ALWAYS) & ((0 < numbers::count(part)) & (numbers::number(part, 0) == 0))
}

// All sections, one after the other; what stands under the key in the one that is asked for.
#[tactic(auto, using(crate::proofs::Bounds::bounds))]
fn check_sections(asked: usize, key: Key, book: &[u8]) -> Result<Section, Fault>
    ensures { BookRead asked key book.now result }
{
    let mut at = 0;
    let mut held = None;
    for kind in 0..entry::KINDS {
        let from = 2 * at;
        let part = &book[from..];
        if is_absent(kind, part) {
            break;
        }
        if has_none(kind, part) {
            return Err(Fault::Broken(at));
        }
        let section = check_section(kind, key, book, at)?;
        if kind == asked {
            held = section.seen;
        }
        at = section.end;
    }
    Ok(Section {
        end: at,
        seen: held,
    })
}

// A book that is broken at a byte.
fn broken_at(byte: usize) -> Refusal
    ensures { result ≡ record { reason = Reason.BrokenBook; place = byte } }
{
    Refusal {
        reason: Reason::BrokenBook,
        place: byte,
    }
}

// One pass over the book: the entry asked for, where the book is sound.
fn check_whole(asked: usize, key: Key, book: &[u8]) -> Result<Option<usize>, Refusal>
    ensures { answer_by itself result
        ≡ on_sound (check_book book.now) (given (place_of asked key (numbers_of book.now))) }
{
    let len = book.len();
    if LARGEST_BOOK < len {
        return Err(broken_at(LARGEST_BOOK));
    }
    match check_sections(asked, key, book) {
        Ok(whole) if 2 * whole.end < len => Err(broken_at(2 * whole.end)),
        Ok(whole) => Ok(whole.seen),
        Err(Fault::Broken(p)) => Err(broken_at(2 * p)),
        Err(Fault::Short) => Err(broken_at(len)),
    }
}

// Sound, or 12 with its byte; no section is asked for. (A number: a caller may ask for any, and KINDS finds none.)
pub fn check_book(book: &[u8]) -> Result<(), Refusal>
    ensures { answer_by itself result ≡ on_sound (check_book book.now) (given tt) }
{
    check_whole(entry::KINDS, Key::default(), book)?;
    Ok(())
}

// The place found, or 6.
fn found(place: Option<usize>) -> Result<usize, Refusal>
    ensures { answer_by itself result ≡ from_place place }
{
    Ok(place.ok_or(Reason::NoPlan)?)
}

// The place, in numbers from the book's start, of the entry under a severity (but for reduced singles), a Table 1
// letter and a column in the section of a kind: 12, then 6 where none is.
pub fn find(
    kind: usize,
    severity: u32,
    letter: u8,
    column: u32,
    book: &[u8],
) -> Result<usize, Refusal>
    ensures { answer_by itself result ≡ place_held kind severity letter column book.now }
{
    let key = Key {
        severity,
        letter,
        column,
    };
    found(check_whole(kind, key, book)?)
}

// Where the entry starts that is nth of those from place `at` on.
fn entry_from(kind: usize, book: &[u8], at: usize, nth: u16) -> usize
    requires { at ≤ 100000000000 }
    ensures { (result ≡ at + entry_at (kind_at kind) nth (drop at (numbers_of book.now)))
        × (result ≤ at + 200000 * nth) }
{
    let key = entry::key_len(kind);
    let mut place = at;
    for _i in 0..nth {
        place += entry::entry_size(kind, numbers::number(book, place + key));
    }
    place
}

// Where the section at place j of the order starts, by counts and sizes alone; from the sixth on, where the fifth ends.
pub fn section_place(j: usize, book: &[u8]) -> usize
    ensures { (result ≡ section_at kinds j (numbers_of book.now)) × (result ≤ 65536000000) }
{
    let mut at = 0;
    for kind in 0..j.min(entry::KINDS) {
        let count = numbers::number(book, at);
        at = entry_from(kind, book, at + 1, count);
    }
    at
}

// Where the entry of a section starts that is nth from its first, by counts and sizes alone.
pub fn entry_place(kind: usize, book: &[u8], nth: u16) -> usize
    ensures { result ≡ section_at kinds kind (numbers_of book.now) + 1
        + entry_at (kind_at kind) nth
        (drop (section_at kinds kind (numbers_of book.now) + 1) (numbers_of book.now)) }
{
    let first = section_place(kind, book) + 1;
    entry_from(kind, book, first, nth)
}

// The first entry of a section under the key, by the count and sizes alone.
#[tactic(auto, using(crate::proofs::Bounds::bounds))]
fn seek(kind: usize, key: Key, part: &[u8]) -> Option<usize>
    ensures { result ≡ section_place (kind_at kind) (key_paper (kind_at kind) key) (numbers_of part.now) }
{
    let end = numbers::count(part);
    let mut at = 1;
    for _i in 0..numbers::number(part, 0) {
        if end <= at {
            return None;
        }
        let from = 2 * at;
        if entry::is_under(kind, key, &part[from..]) {
            return Some(at);
        }
        at += entry::size_at(kind, &part[from..]);
    }
    None
}

// The same in the section of a kind, as a place in the book.
#[tactic(auto, using(crate::proofs::Bounds::bounds))]
fn laid_at(kind: usize, key: Key, book: &[u8]) -> Option<usize>
    ensures { result ≡ place_laid kind (λ k. key_paper k key) (numbers_of book.now) }
{
    if entry::KINDS <= kind {
        return None;
    }
    let at = section_place(kind, book);
    if numbers::count(book) <= at {
        return None;
    }
    let from = 2 * at;
    let seen = seek(kind, key, &book[from..])?;
    Some(at + seen)
}

// As `find`, of a book that was checked before: that is not done again, so what it answers of a broken one is no 12.
pub fn find_again(
    kind: usize,
    severity: u32,
    letter: u8,
    column: u32,
    book: &[u8],
) -> Result<usize, Refusal>
    ensures { answer_by itself result ≡ laid_place kind severity letter column book.now }
{
    let key = Key {
        severity,
        letter,
        column,
    };
    found(laid_at(kind, key, book))
}
