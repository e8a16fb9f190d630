#![tactic(auto)]

// What a line of the input says: its letter, and the numbers after it.
ghost use Rattle.std.specs.Prelude.{ℕ, ◌≡◌};
ghost use Rattle.rules.specs.History.{byte_of};
ghost use Rattle.rules.specs.Feeding.{up_to};
ghost use Rattle.lotforms.specs.Reading.{value_in, number_in, field_from, lot_from, order_from};
ghost use Rattle.lotforms.specs.Reading.{letter_from, order_paper, said, line_paper, form_of};

// An order, with its yes or no.
#[derive(Clone, Copy, Debug, PartialEq, Eq)]
pub enum Order {
    Steady(bool),
    Permission(bool),
    Corrective,
}

impl Order {
    // The byte of a history that stands for it: the rules say an order by its byte.
    pub fn byte(self) -> u32
        ensures { result ≡ byte_of (order_paper self) }
    {
        match self {
            Order::Steady(true) => 5,
            Order::Steady(false) => 6,
            Order::Permission(true) => 7,
            Order::Permission(false) => 8,
            Order::Corrective => 9,
        }
    }
}

// What a line says: a lot with its total, or an order.
#[derive(Clone, Copy, Debug, PartialEq, Eq)]
pub enum Line {
    Lot {
        again: bool,
        size: u32,
        level: u32,
        column: u32,
        total: u32,
    },
    Order(Order),
}

// The most bytes of a line that has a known form: a letter and four numbers of ten digits, one space apart.
pub const LONGEST: usize = 45;

// The bytes before the first separator, all where there is none.
pub fn up_to(separator: u8, bytes: &[u8]) -> &[u8]
    ensures { result.now ≡ up_to separator bytes.now }
{
    let end = bytes
        .iter()
        .position(|b| *b == separator)
        .unwrap_or(bytes.len());
    &bytes[..end]
}

// What a run of digits is worth, where that fits.
#[tactic(auto, using(crate::proofs::Reading::digits))]
fn value(digits: &[u8]) -> Option<u32>
    ensures { result ≡ value_in digits.now }
{
    let mut value: u32 = 0;
    for b in digits {
        if !b.is_ascii_digit() {
            return None;
        }
        value = value.checked_mul(10)?.checked_add(u32::from(*b - b'0'))?;
    }
    Some(value)
}

// "Numbers are decimal without leading zeros, each at most 4,294,967,295"
fn number(field: &[u8]) -> Option<u32>
    ensures { result ≡ number_in field.now }
{
    let first = field.first()?;
    if *first == b'0' && field.len() > 1 {
        return None;
    }
    value(field)
}

// The number in the field that starts at a place, and where the next field starts.
#[tactic(auto, using(crate::proofs::Reading::fields))]
fn number_at(line: &[u8], from: usize) -> Option<(u32, usize)>
    ensures { result ≡ field_from line.now from }
{
    let field = up_to(b' ', line.get(from..)?);
    Some((number(field)?, from + field.len() + 1))
}

// "L or R (original, resubmitted), size, level, column, total": the fields after the letter. By places and no iterator:
// a line ends with its last field, which the place after it shows.
fn lot_line(again: bool, fields: &[u8]) -> Option<Line>
    ensures { line_paper result ≡ lot_from again fields.now }
{
    let (size, second) = number_at(fields, 0)?;
    let (level, third) = number_at(fields, second)?;
    let (column, fourth) = number_at(fields, third)?;
    let (total, end) = number_at(fields, fourth)?;
    if end <= fields.len() {
        return None;
    }
    Some(Line::Lot {
        again,
        size,
        level,
        column,
        total,
    })
}

// "S (steady) and P (permission), each with 0 for no or 1 for yes": the field after the letter.
fn yes_or_no(fields: &[u8]) -> Option<bool>
    ensures { (on_yes on_no : ℕ) → said on_yes on_no result ≡ order_from on_yes on_no fields.now }
{
    let (value, end) = number_at(fields, 0)?;
    if end <= fields.len() {
        return None;
    }
    match value {
        0 => Some(false),
        1 => Some(true),
        _ => None,
    }
}

// A letter and the fields after it, for a work that knows resubmitted lots or does not.
#[tactic(auto, using(crate::proofs::Forms::letters))]
fn letter_line(resubmission: bool, letter: u8, fields: &[u8]) -> Option<Line>
    ensures { line_paper result ≡ letter_from resubmission letter fields.now }
{
    match letter {
        b'L' => lot_line(false, fields),
        b'R' if resubmission => lot_line(true, fields),
        b'S' => Some(Line::Order(Order::Steady(yes_or_no(fields)?))),
        b'P' => Some(Line::Order(Order::Permission(yes_or_no(fields)?))),
        _ => None,
    }
}

// What a line says, where it has a known form; a longer one is not read.
#[tactic(auto, using(crate::proofs::Forms::lines))]
pub fn line_of(resubmission: bool, line: &[u8]) -> Option<Line>
    ensures { line_paper result ≡ form_of resubmission line.now }
{
    if LONGEST < line.len() {
        return None;
    }
    match line {
        [letter] if *letter == b'C' => Some(Line::Order(Order::Corrective)),
        [letter, gap, fields @ ..] if *gap == b' ' => letter_line(resubmission, *letter, fields),
        _ => None,
    }
}
