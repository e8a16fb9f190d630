// A book written from its entries, and its entries counted and shown.
ghost use Rattle.std.specs.Prelude.{length};
ghost use Rattle.rules.specs.Writing.{lent_rows, write_book, count_entries, read_entry};
ghost use Rattle.writing.specs.Paper.{lists};
ghost use Rattle.terminal.specs.Lent.{NumberLeft, WrittenLeft, EntryLeft};

use super::telling::status;

// The book of five lists of rows; 12 with the position of the first bad entry, then 11.
#[unsafe(no_mangle)]
pub extern "C" fn hm_write_book<'a>(
    reduced: &'a [u8],
    staged: &'a [u8],
    sequential: &'a [u8],
    variables: &'a [u8],
    sigma: &'a [u8],
    out: &mut [u8],
    written: &mut u32,
) -> u32
    ensures { WrittenLeft
        (write_book (lent_rows (lists reduced.now staged.now
        sequential.now variables.now sigma.now)) (length out.old)) result
        out.old out.new
        written.old written.new }
{
    match sentencing::write_book([reduced, staged, sequential, variables, sigma], out) {
        Ok(bytes) => {
            *written = bytes as u32;
            0
        }
        Err(refusal) => status(refusal),
    }
}

// How many entries a section of a book has.
#[unsafe(no_mangle)]
pub extern "C" fn hm_count_entries(book: &[u8], section: u32, count: &mut u32) -> u32
    ensures { NumberLeft (count_entries book.now section) result
        count.old count.new }
{
    match sentencing::count_entries(book, section) {
        Ok(entries) => {
            *count = entries;
            0
        }
        Err(refusal) => status(refusal),
    }
}

// An entry of a section as a row.
#[unsafe(no_mangle)]
pub extern "C" fn hm_read_entry(
    book: &[u8],
    section: u32,
    nth: u32,
    row: &mut [u8],
    numbers: &mut u32,
) -> u32
    ensures { EntryLeft (read_entry book.now section nth (length row.old)) result
        row.old row.new
        numbers.old numbers.new }
{
    match sentencing::read_entry(book, section, nth, row) {
        Ok(width) => {
            *numbers = width;
            0
        }
        Err(refusal) => status(refusal),
    }
}
