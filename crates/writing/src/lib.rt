#![tactic(auto)]

// A plan book written from its entries, which are rows of numbers, one lent list for each section.
ghost use Rattle.std.specs.Prelude.{◌≡◌, ◌+◌, ◌*◌, ◌≤◌, length};
ghost use Rattle.std.proofs.lemmas.List.Edits.{sets};
ghost use Rattle.rules.specs.Numbers.{number_bytes};
ghost use Rattle.rules.specs.Writing.{lent_rows, laid, left_out, book_of, write_book};
ghost use Rattle.writing.specs.Paper.{lent, kind_of, rows_of, section_size, ListChecked, ListsChecked};
ghost use Rattle.writing.specs.Paper.{Layable, SectionLayable, SectionLaid, Writable, BookLeft};

use book::LARGEST_BOOK;
use entry::{KINDS, SIGMA, STAGED};
use refusals::{Reason, Refusal};

// Is a section of n entries left out? The fifth is, without any.
fn left_out(kind: usize, n: usize) -> bool
    ensures { result ≡ left_out kind n }
{
    kind == SIGMA && n == 0
}

// How many numbers a section of n entries has: its count, and then theirs.
fn section_size(kind: usize, n: usize, laid: usize) -> usize
    requires { laid ≤ 50700 }
    ensures { result ≡ section_size kind n laid }
{
    if left_out(kind, n) { 0 } else { 1 + laid }
}

// How many rows a list has, and how many numbers their entries take in the book.
#[derive(Clone, Copy, Default)]
struct Count {
    rows: usize,
    numbers: usize,
}

// Bytes, put one by one from a byte on. A copy by the library is a call of C's memmove, which whoever links the archive
// would owe.
fn copy_bytes(bytes: &[u8], out: &mut [u8], at: usize)
    requires { at + length bytes.now ≤ length out.old }
    ensures { out.new ≡ sets out.old at bytes.now }
{
    for i in 0..bytes.len() {
        out[at + i] = bytes[i];
    }
}

// A lent list: the rows of a section's entries, one behind the other.
#[derive(Clone, Copy)]
struct LentList<'a> {
    kind: usize,
    rows: &'a [u8],
}

impl LentList<'_> {
    // Each row is right after the one before it; else the position of the first that is not.
    fn check(self) -> Result<Count, usize>
        ensures { ListChecked (kind_of self.entry) (rows_of self.entry) result }
    {
        let mut count = Count::default();
        let mut before: &[u8] = &[];
        for row in self.rows.chunks(2 * rows::row_width(self.kind)) {
            let Some(more) = rows::walk_row(self.kind, before, row) else {
                return Err(count.rows);
            };
            count.rows += 1;
            count.numbers += more;
            before = row;
        }
        Ok(count)
    }

    // The entries, laid from place `at` on; the place after them. Rows that stand as their entries do, as all but
    // staged ones, are copied as they are lent.
    fn lay(self, out: &mut [u8], at: usize) -> usize
        requires { Layable (kind_of self) (rows_of self) at out.old }
        ensures { (result ≡ at + length (laid (kind_of self.entry) (rows_of self.entry)))
            × (out.new ≡ sets out.old (2 * at) (number_bytes (laid (kind_of self.entry) (rows_of self.entry)))) }
    {
        if self.kind != STAGED {
            copy_bytes(self.rows, out, 2 * at);
            return at + self.rows.len() / 2;
        }
        let mut to = at;
        for row in self.rows.chunks(2 * rows::row_width(self.kind)) {
            rows::lay_entry(self.kind, row, out, to);
            to += entry::size_at(self.kind, row);
        }
        to
    }

    // A section, unless it is left out: its count, and then its entries; the place after it.
    fn lay_section(self, out: &mut [u8], at: usize) -> usize
        requires { SectionLayable (kind_of self) self.kind (rows_of self) at out.old }
        ensures { SectionLaid (kind_of self.entry) self.entry.kind (rows_of self.entry) at out.old out.new result }
    {
        let n = self.rows.len() / (2 * rows::row_width(self.kind));
        if left_out(self.kind, n) {
            return at;
        }
        let from = 2 * at;
        out[from..from + 2].copy_from_slice(&(n as u16).to_le_bytes());
        self.lay(out, at + 1)
    }
}

// How many numbers the book of all lists has; else the position, counted through them, of the first bad row.
fn check_lists(lists: &[&[u8]; KINDS]) -> Result<usize, usize>
    ensures { ListsChecked (lent_rows (lent lists.now)) result }
{
    let mut before = 0;
    let mut size = 0;
    for (kind, rows) in lists.iter().enumerate() {
        let count = LentList { kind, rows }
            .check()
            .map_err(|place| before + place)?;
        before += count.rows;
        size += section_size(kind, count.rows, count.numbers);
    }
    Ok(size)
}

// All sections, from the buffer's start on.
fn lay_lists(lists: &[&[u8]; KINDS], out: &mut [u8])
    requires { Writable (lent_rows (lent lists.now)) out.old }
    ensures { out.new ≡ sets out.old 0 (book_of (lent_rows (lent lists.now))) }
{
    let mut at = 0;
    for (kind, rows) in lists.iter().enumerate() {
        at = LentList { kind, rows }.lay_section(out, at);
    }
}

// "entries in, book out into a lent buffer, bytes past the book left as they were": how many bytes the book has; 12
// with the position of the first bad entry, then 11.
pub fn write_book(lists: [&[u8]; KINDS], out: &mut [u8]) -> Result<usize, Refusal>
    ensures { BookLeft (write_book (lent_rows (lent lists.entry)) (length out.old)) result out.old out.new }
{
    let numbers = check_lists(&lists).map_err(|place| Refusal {
        reason: Reason::BrokenBook,
        place,
    })?;
    let size = 2 * numbers;
    if out.len() < size || LARGEST_BOOK < size {
        return Err(Reason::BufferShort.into());
    }
    lay_lists(&lists, out);
    Ok(size)
}
