#![tactic(auto)]

// A plan book's entries: how many a section has, and each as a row of numbers.
ghost use Rattle.std.specs.Prelude.{◌≡◌, length};
ghost use Rattle.rules.specs.Numbers.{numbers_of};
ghost use Rattle.rules.specs.Writing.{read_entries, count_entries, read_entry};
ghost use Rattle.refusals.specs.Paper.{itself, answer_by};
ghost use Rattle.showing.specs.Paper.{Held, ShownAt, RowLeft};

use entry::KINDS;
use refusals::{Reason, Refusal};

// How many entries a section has, of a book that is sound; one that is not there has none. A section is a number: a
// caller may hand over any.
fn entries_in(book: &[u8], section: u32) -> u16
    ensures { result ≡ length (read_entries (numbers_of book.now) section) }
{
    let kind = section as usize;
    if KINDS <= kind {
        return 0;
    }
    numbers::number(book, book::section_place(kind, book))
}

// How many entries a section has; 12 of a book that is broken.
pub fn count_entries(book: &[u8], section: u32) -> Result<u32, Refusal>
    ensures { answer_by itself result ≡ count_entries book.now section }
{
    book::check_book(book)?;
    Ok(u32::from(entries_in(book, section)))
}

// The row of an entry that is there, where there is room for it.
fn show(book: &[u8], kind: usize, nth: u16, row: &mut [u8])
    requires { Held book.now kind nth row.old }
    ensures { ShownAt book.now kind nth row.old row.new }
{
    let place = book::entry_place(kind, book, nth);
    rows::show_entry(kind, &book[2 * place..], row);
}

// The entry of a section that is nth from its first, as a row at the start of `row`, the rest of which stays; how many
// numbers the row has: 12, then 6 where there is no such entry, then 11 for a row too short.
pub fn read_entry(book: &[u8], section: u32, nth: u32, row: &mut [u8]) -> Result<u32, Refusal>
    ensures { RowLeft (read_entry book.now section nth (length row.old)) result row.old row.new }
{
    book::check_book(book)?;
    if u32::from(entries_in(book, section)) <= nth {
        return Err(Reason::NoPlan.into());
    }
    let kind = section as usize;
    let width = rows::row_width(kind);
    if row.len() < 2 * width {
        return Err(Reason::BufferShort.into());
    }
    show(book, kind, nth as u16, row);
    Ok(width as u32)
}
