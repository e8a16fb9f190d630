#![tactic(auto)]

// One entry of a plan book as a row of numbers: would the reader take it, laid in the order of the book, and shown.
ghost use Rattle.std.specs.Prelude.{◌≡◌, ◌+◌, ◌*◌, ◌≤◌, ◌<◌, [], ◌++◌, length, get_or, drop};
ghost use Rattle.std.proofs.lemmas.List.Edits.{sets};
ghost use Rattle.rules.specs.Numbers.{numbers_of, number_bytes};
ghost use Rattle.rules.specs.Book.{kind_at, staged, key_of};
ghost use Rattle.rules.specs.Writing.{entry_in_row, row_of};
ghost use Rattle.rows.specs.Paper.{put_number, row_in, row_size, entry_laid, entry_shown, Layable, Showable};

use entry::{REDUCED, SEQUENTIAL, STAGED, VARIABLES};

// A staged row, which is the longest, has 25 numbers.
const LONGEST: usize = 50;

// How many numbers a row has. A kind is a number: a caller may hand over any.
pub fn row_width(kind: usize) -> usize
    ensures { (result ≡ (kind_at kind).width) × (result ≤ 25) }
{
    match kind {
        REDUCED => 4,
        STAGED => 25,
        SEQUENTIAL => 8,
        _ => 5,
    }
}

// Where the number at place i of an entry stands in its row, by the number after its key. In a staged row seven Ac
// follow seven sizes, and then seven Re; in an entry Ac and Re stand by turns.
fn row_place(kind: usize, after: u16, i: usize) -> usize
    ensures { result ≡ (kind_at kind).in_row after i }
{
    if kind != STAGED {
        return i;
    }
    let start = 4 + (after as usize);
    if i < start {
        return i;
    }
    let j = i - start;
    if j % 2 == 0 {
        return 11 + j / 2;
    }
    18 + j / 2
}

// The number at place i of one stretch, put at a place of another.
fn copy_number(from: &[u8], i: usize, to: &mut [u8], at: usize)
    requires { (2 * i + 1 < length from.now) × (2 * at + 1 < length to.old) }
    ensures { to.new ≡ put_number to.old at (get_or (numbers_of from.now) i 0) }
{
    to[2 * at..2 * at + 2].copy_from_slice(&from[2 * i..2 * i + 2]);
}

// The number after the key of the row or the entry that e begins with.
fn after_key(kind: usize, e: &[u8]) -> u16
    ensures { result ≡ get_or (numbers_of e.now) (kind_at kind).key 0 }
{
    numbers::number(e, entry::key_len(kind))
}

// The entry of a row, laid from place `at` on, where there is room for it.
fn lay(kind: usize, row: &[u8], out: &mut [u8], at: usize)
    requires { Layable (kind_at kind) (numbers_of row.now) at out.old }
    ensures { out.new
        ≡ sets out.old (2 * at) (number_bytes (entry_in_row (kind_at kind) (numbers_of row.now))) }
{
    let after = after_key(kind, row);
    let size = entry::size_at(kind, row);
    for i in 0..size {
        copy_number(row, row_place(kind, after, i), out, at + i);
    }
}

// The entry of the row that `row` begins with, laid from place `at` on; nothing is written where the row is cut short,
// says a longer entry than a row has, or there is no room.
pub fn lay_entry(kind: usize, row: &[u8], out: &mut [u8], at: usize)
    ensures { out.new
        ≡ entry_laid (kind_at kind) (row_in (kind_at kind) (numbers_of row.now)) at out.old }
{
    let width = row_width(kind);
    if numbers::count(row) < width {
        return;
    }
    let size = entry::size_at(kind, row);
    if width < size {
        return;
    }
    let room = numbers::count(out);
    if room < at {
        return;
    }
    if room - at < size {
        return;
    }
    lay(kind, row, out, at);
}

// The numbers of a whole staged row: the entry is laid in the order of the book, and then read.
fn walk_staged(row: &[u8]) -> Option<usize>
    requires { staged.width ≤ length (numbers_of row.now) }
    ensures { result ≡ row_size staged [] (row_in staged (numbers_of row.now)) }
{
    if row_width(STAGED) < entry::size_at(STAGED, row) {
        return None;
    }
    let mut laid = [0u8; LONGEST];
    lay(STAGED, row, &mut laid, 0);
    entry::entry_numbers(STAGED, &laid).ok()
}

// The numbers of the row that `row` begins with, whatever stood before it. Each kind goes on as a constant, so that the
// reader's loop is compiled for it alone; and not by `walk_entry`, which the check of a book has to itself.
fn walk_numbers(kind: usize, row: &[u8]) -> Option<usize>
    requires { (kind_at kind).width ≤ length (numbers_of row.now) }
    ensures { result ≡ row_size (kind_at kind) [] (row_in (kind_at kind) (numbers_of row.now)) }
{
    match kind {
        REDUCED => entry::entry_numbers(REDUCED, row).ok(),
        STAGED => walk_staged(row),
        SEQUENTIAL => entry::sequential_numbers(row).ok(),
        _ => entry::entry_numbers(VARIABLES, row).ok(),
    }
}

// How many numbers the entry of the row that `row` begins with has, where the reader would take it after the entry
// that `before` begins with (none where that is empty).
pub fn walk_row(kind: usize, before: &[u8], row: &[u8]) -> Option<usize>
    ensures { result
        ≡ row_size (kind_at kind) (key_of (kind_at kind) (numbers_of before.now))
        (row_in (kind_at kind) (numbers_of row.now)) }
{
    if numbers::count(row) < row_width(kind) {
        return None;
    }
    if entry::key_falls(kind, before, row) {
        return None;
    }
    walk_numbers(kind, row)
}

// The row of an entry, where there is room for it.
fn show(kind: usize, e: &[u8], row: &mut [u8])
    requires { Showable (kind_at kind) (numbers_of e.now) row.old }
    ensures { row.new
        ≡ number_bytes (row_of (kind_at kind) (numbers_of e.now))
        ++ drop (2 * (kind_at kind).width) row.old }
{
    let after = after_key(kind, e);
    let size = entry::size_at(kind, e);
    let width = row_width(kind);
    row[..2 * width].fill(0);
    for i in 0..size {
        copy_number(e, i, row, row_place(kind, after, i));
    }
}

// The row of the entry that e begins with, at the start of `row`; nothing is written where the entry is not whole, is
// longer than a row, or there is no room.
pub fn show_entry(kind: usize, e: &[u8], row: &mut [u8])
    ensures { row.new ≡ entry_shown (kind_at kind) (numbers_of e.now) row.old }
{
    let size = entry::size_at(kind, e);
    if numbers::count(e) < size {
        return;
    }
    let width = row_width(kind);
    if width < size {
        return;
    }
    if numbers::count(row) < width {
        return;
    }
    show(kind, e, row);
}
