// Document 02, T-03 and T-07: books written from rows, their entries counted and shown. Lent memory is 255 throughout
// before.
ghost use Rattle.std.specs.Prelude.{◌≤◌, length};

use super::answers::{Answer, Numbers};
use super::{BOOK, say};
use refusals::Refusal;
use std::{fmt, io};

// A row of each of four kinds at column 10, the staged one with 9,999 past its five stages; and the last row once more.
const ROWS: [u8; 94] = *b"\x08\0\x0a\0\x50\0\x02\0\
    \0\0\x0a\0\x0a\0\x05\0\x03\0\x03\0\x03\0\x03\0\x03\0\x0f\x27\x0f\x27\
    \xff\xff\0\0\0\0\x01\0\x03\0\x0f\x27\x0f\x27\x02\0\x03\0\x03\0\x03\0\x04\0\x0f\x27\x0f\x27\
    \0\0\x0a\0\x0a\0\xd6\x06\xc7\x08\x62\x25\x62\0\x09\0\
    \0\0\x0a\0\x0a\0\x03\0\xac\x0d\0\0\x0a\0\x0a\0\x03\0\xac\x0d";

// A sigma plan, under the key of the variables plan.
const SIGMA: [u8; 10] = *b"\0\0\x0a\0\x0a\0\x04\0\xad\x0d";

// A book that was written, and all that its room holds then.
#[derive(Clone, Copy)]
struct WholeBook<'a> {
    bytes: usize,
    out: &'a [u8],
}

impl fmt::Display for WholeBook<'_> {
    fn fmt<W: fmt::Write>(&self, f: &mut fmt::Formatter<W>) -> fmt::Result {
        write!(f, "{} bytes, sound:{}", self.bytes, Numbers(self.out))
    }
}

fn say_written(
    rt: &impl Print,
    case: &str,
    answer: Result<usize, Refusal>,
    out: &[u8],
) -> io::Result<()> {
    let sound = answer.and_then(|bytes| {
        sentencing::check_book(&out[..bytes.min(out.len())])?;
        Ok(WholeBook { bytes, out })
    });
    say(rt, case, sound)
}

fn no_entries(rt: &impl Print) -> io::Result<()> {
    let none: &[u8] = &[];
    let mut out = [255u8; 10];
    let answer = sentencing::write_book([none; 5], &mut out);
    say_written(rt, "five empty lists: ", answer, &out)
}

// One row for each of the first three lists, and the rest for the variables plans.
fn written<'a>(
    rt: &impl Print,
    case: &str,
    rows: &'a [u8],
    sigma: &'a [u8],
    out: &mut [u8],
) -> io::Result<()>
    requires { 74 ≤ length rows.now }
{
    let lists = [&rows[0..8], &rows[8..58], &rows[58..74], &rows[74..], sigma];
    let answer = sentencing::write_book(lists, out);
    say_written(rt, case, answer, out)
}

fn counted(rt: &impl Print, case: &str, book: &[u8]) -> io::Result<()> {
    print!(rt; "{case}")?;
    for section in 0..6 {
        print!(rt; " {}", Answer(sentencing::count_entries(book, section)))?;
    }
    println!(rt; "")
}

// An entry's row, and all that the lent memory holds past it.
#[derive(Clone, Copy)]
struct ShownRow<'a> {
    width: u32,
    row: &'a [u8],
}

impl fmt::Display for ShownRow<'_> {
    fn fmt<W: fmt::Write>(&self, f: &mut fmt::Formatter<W>) -> fmt::Result {
        write!(f, "{} numbers:{}", self.width, Numbers(self.row))
    }
}

fn shown(
    rt: &impl Print,
    case: &str,
    book: &[u8],
    section: u32,
    nth: u32,
    row: &mut [u8],
) -> io::Result<()> {
    let read = sentencing::read_entry(book, section, nth, row);
    let row: &[u8] = row;
    say(rt, case, read.map(|width| ShownRow { width, row }))
}

// The rows written, and refused; the book that fills its room.
fn books(rt: &impl Print) -> io::Result<[u8; 80]> {
    let mut out = [255u8; 82];
    written(rt, "a row of four kinds: ", &ROWS[..84], b"", &mut out)?;
    let mut book = [255u8; 80];
    written(rt, "room for 80 bytes: ", &ROWS[..84], b"", &mut book)?;
    let mut short = [255u8; 79];
    written(rt, "room for 79 bytes: ", &ROWS[..84], b"", &mut short)?;
    let mut high = ROWS;
    high[72] = 12;
    written(rt, "and At 12: ", &high[..84], b"", &mut short)?;
    written(rt, "half of K: ", &ROWS[..83], b"", &mut out)?;
    written(rt, "the last key twice: ", &ROWS, b"", &mut out)?;
    Ok(book)
}

fn entries(rt: &impl Print, book: &[u8]) -> io::Result<()> {
    counted(rt, "entries in sections 0 to 5:", book)?;
    let mut row = [255u8; 52];
    shown(rt, "the staged entry: ", book, 1, 0, &mut row)?;
    shown(rt, "a second one: ", book, 1, 1, &mut row)?;
    let mut short = [255u8; 49];
    shown(rt, "room for 49 bytes: ", book, 1, 0, &mut short)?;
    shown(rt, "and no book: ", b"", 1, 0, &mut short)?;
    counted(rt, "entries in the book of L:", &BOOK)?;
    let mut five = [255u8; 12];
    shown(rt, "its third of variables: ", &BOOK, 3, 2, &mut five)
}

// The rows and the sigma plan, written and read back.
fn five_sections(rt: &impl Print) -> io::Result<()> {
    let mut book = [255u8; 92];
    written(rt, "a row of each kind: ", &ROWS[..84], &SIGMA, &mut book)?;
    counted(rt, "entries in its sections:", &book)?;
    let mut row = [255u8; 12];
    shown(rt, "the sigma entry: ", &book, 4, 0, &mut row)
}

pub(crate) fn all(rt: &impl Print) -> io::Result<()> {
    no_entries(rt)?;
    let book = books(rt)?;
    entries(rt, &book)?;
    five_sections(rt)
}
