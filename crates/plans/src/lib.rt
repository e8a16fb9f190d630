#![tactic(auto)]

// Single plans of document 01: the letter of Table 1, where it lands in a master table, Ac there, the cut to the lot;
// and the types of a lot that is asked about, its plan and its verdict.
ghost use Rattle.std.specs.Prelude.{◌≡◌, ◌-◌, ◌<◌, get_or, MatchResult};
ghost use Rattle.rules.specs.Codes.{table_one_letter};
ghost use Rattle.rules.specs.Single.{sizes, ac_of, box_at, landing_of, cut_plan, plan_at, tighter_ac};
ghost use Rattle.rules.specs.Straight.{last_to_zero, last_number, ac_along};
ghost use Rattle.rules.specs.Fractional.{share_at, own_plan};
ghost use Rattle.rules.specs.Entries.{asked_letter, plain_plan, in_fractions};
ghost use Rattle.rules.specs.Refusals.{refused, and_then};
ghost use Rattle.refusals.specs.Paper.{number_of, reason_by, itself};
ghost use Rattle.plans.specs.Paper.{asked_paper, plan_paper, fractional_paper, severity_of, letters_in, PlaceOf};

use refusals::Reason;

// Severities, as a lot is asked about.
const NORMAL: u32 = 0;

const TIGHTENED: u32 = 1;

pub const REDUCED: u32 = 2;

const STOPPED: u32 = 3;

const LAST_LEVEL: u32 = 6;

pub const LAST_COLUMN: u32 = 25;
// Up to this column each item is 0 or 1.
pub const LAST_OF_ITEMS: u32 = 15;

// Shares of one nonconforming item: none, where Ac is whole, one half, one third.
// Numbers: a verdict is counted by the share, whichever a caller hands over.
const NO_SHARE: u8 = 0;

const HALF: u8 = 2;

const THIRD: u8 = 3;

// A row of Table 1: the last size, and the letters in level order.
#[derive(Clone, Copy)]
struct SizeRow(u32, [u8; 7]);

static TABLE_ONE: [SizeRow; 14] = [
    SizeRow(8, [0, 0, 0, 0, 0, 0, 1]),
    SizeRow(15, [0, 0, 0, 0, 0, 1, 2]),
    SizeRow(25, [0, 0, 1, 1, 1, 2, 3]),
    SizeRow(50, [0, 1, 1, 2, 2, 3, 4]),
    SizeRow(90, [1, 1, 2, 2, 2, 4, 5]),
    SizeRow(150, [1, 1, 2, 3, 3, 5, 6]),
    SizeRow(280, [1, 2, 3, 4, 4, 6, 7]),
    SizeRow(500, [1, 2, 3, 4, 5, 7, 8]),
    SizeRow(1200, [2, 2, 4, 5, 6, 8, 9]),
    SizeRow(3200, [2, 3, 4, 6, 7, 9, 10]),
    SizeRow(10000, [2, 3, 5, 6, 8, 10, 11]),
    SizeRow(35000, [2, 3, 5, 7, 9, 11, 12]),
    SizeRow(150000, [3, 4, 6, 8, 10, 12, 13]),
    SizeRow(500000, [3, 4, 6, 8, 11, 13, 14]),
];

// The row above them.
static ABOVE: SizeRow = SizeRow(u32::MAX, [3, 4, 7, 9, 12, 14, 15]);

static SIZES: [u16; 17] = [
    2, 3, 5, 8, 13, 20, 32, 50, 80, 125, 200, 315, 500, 800, 1250, 2000, 3150,
];

// The acceptance numbers of the normal and the tightened master table, along letter plus column.
const FIRST_AC: usize = 17;

const LAST_AC: usize = 26;

static ACS: [[u16; 10]; 2] = [
    [1, 2, 3, 5, 7, 10, 14, 21, 30, 44],
    [0, 1, 2, 3, 5, 8, 12, 18, 27, 41],
];

// Letter plus column where the normal table has Ac 0 and Ac 1; the tightened one has them one later.
const AC_ZERO: u32 = 14;

const AC_ONE: u32 = 17;

// The lot that is asked about, under a severity.
// Numbers: a caller may ask about any, and is told which is wrong.
#[derive(Clone, Copy, PartialEq, Eq)]
pub struct Asked {
    pub severity: u32,
    pub size: u32,
    pub level: u32,
    pub column: u32,
}

// The letter that gives the size, the items to draw, Ac; the table's own size, and whether it was cut to the lot.
#[derive(Clone, Copy, PartialEq, Eq)]
pub struct SinglePlan {
    pub letter: u8,
    pub n: u16,
    pub ac: u16,
    pub table_n: u16,
    pub cut: bool,
}

// A single plan in the mode of fractions: where the share is not 0, Ac is.
#[derive(Clone, Copy, PartialEq, Eq)]
pub struct FractionalPlan {
    pub plan: SinglePlan,
    pub share: u8,
}

// What judging a sample says; a sample that is not staged is one stage of one.
#[derive(Clone, Copy, PartialEq, Eq)]
pub struct Verdict {
    pub accepted: bool,
    pub used: u32,
    pub total: u64,
    pub stage: u8,
    pub stages: u8,
}

// A plan, and the verdict of a sample on it.
#[derive(Clone, Copy)]
pub struct Judged<P> {
    pub plan: P,
    pub verdict: Verdict,
}

impl Verdict {
    // The verdict of a sample that is not staged.
    pub fn of_one_stage(accepted: bool, used: u32, total: u64) -> Verdict
        ensures { result ≡ record { accepted = accepted; used = used; total = total; stage = 1; stages = 1 } }
    {
        Verdict {
            accepted,
            used,
            total,
            stage: 1,
            stages: 1,
        }
    }
}

// The master tables, by severity.
#[derive(Clone, Copy)]
enum Table {
    Normal,
    Tightened,
}

impl Table {
    fn severity(self) -> u32
        ensures { (result ≡ severity_of self) × (result < 2) }
    {
        self as u32
    }
}

// A place in a master table, by a letter of Table 1.
#[derive(Clone, Copy)]
struct Place {
    table: Table,
    column: u32,
    letter: u8,
    ghost in_table: { (column < 26) × (letter < 16) },
}

// The letters of the first row that goes up to a size.
fn letters_of(rows: &[SizeRow], size: u32) -> [u8; 7]
    ensures { result ≡ letters_in rows.now size }
{
    rows.iter().find(|row| size <= row.0).unwrap_or(&ABOVE).1
}

// The letter of Table 1.
#[tactic(auto, unfolding(rules::specs::Codes::table_one_letter))]
pub fn letter(size: u32, level: u32) -> Result<u8, Reason>
    ensures { reason_by itself result ≡ table_one_letter size level }
{
    if size < 2 {
        return Err(Reason::LotTooSmall);
    }
    if LAST_LEVEL < level {
        return Err(Reason::NoSuchLevel);
    }
    Ok(letters_of(&TABLE_ONE, size)[level as usize])
}

// The letter of a lot that can be planned at a severity: what every look-up in a book starts from.
#[tactic(auto, unfolding(rules::specs::Entries::asked_letter, rules::specs::Codes::table_one_letter))]
pub fn asked_letter(lot: Asked) -> Result<u8, Reason>
    ensures { reason_by itself result ≡ asked_letter (asked_paper lot) }
{
    if STOPPED < lot.severity {
        return Err(Reason::UnknownForm);
    }
    let found = letter(lot.size, lot.level)?;
    if LAST_COLUMN < lot.column {
        return Err(Reason::NoSuchColumn);
    }
    if lot.severity == STOPPED {
        return Err(Reason::WhileStopped);
    }
    Ok(found)
}

// The last letter plus column that goes to Ac 0: one past it, where the arrow points up. Columns 0 and 1, AQL 0.010 and
// 0.015, end before Ac 1, so every letter goes to Ac 0; a column over 14, tightened 15, begins after Ac 0.
fn last_to_zero(zero_at: u32, column: u32) -> u32
    requires { zero_at < 16 }
    ensures { result ≡ last_to_zero zero_at column }
{
    if column <= 1 {
        return zero_at + 2;
    }
    if column <= zero_at {
        return zero_at + 1;
    }
    zero_at
}

// Letter plus column past which a column holds no number: 24; but A to E hold numbers at 25 and 26 too, and E is at 25
// in column 21, at 26 in column 22.
fn last_number(column: u32) -> u32
    ensures { result ≡ last_number column }
{
    if column <= 20 {
        return 24;
    }
    if column <= 21 {
        return 25;
    }
    26
}

// The acceptance number along letter plus column; 0 where there is none.
fn ac_along(table: Table, s: usize) -> u16
    ensures { result ≡ ac_along (severity_of table) s }
{
    if s < FIRST_AC || LAST_AC < s {
        return 0;
    }
    ACS[table.severity() as usize][s - FIRST_AC]
}

// The acceptance number in a box of a master table; 0 where an arrow stands.
fn ac_at(table: Table, column: u32, letter: u8) -> u16
    ensures { result ≡ ac_of (box_at (severity_of table) column letter) }
{
    let s = letter as usize + column as usize;
    if (last_number(column) as usize) < s {
        return 0;
    }
    ac_along(table, s)
}

// The plan of a lot by a letter, the size there and Ac: a size at or above the lot is cut to it.
pub fn cut_plan(lot: u32, letter: u8, table_n: u16, ac: u16) -> SinglePlan
    ensures { plan_paper result ≡ cut_plan lot letter table_n ac }
{
    let cut = lot <= table_n as u32;
    SinglePlan {
        letter,
        n: if cut { lot as u16 } else { table_n },
        ac,
        table_n,
        cut,
    }
}

// The size of a letter; past the last there is none.
fn size_of(letter: u8) -> u16
    ensures { result ≡ get_or sizes letter 0 }
{
    SIZES.get(letter as usize).copied().unwrap_or(0)
}

impl Place {
    // Of a lot, by its Table 1 letter; a reduced one has no master table.
    fn of(lot: Asked) -> Result<Place, Reason>
        ensures { MatchResult result
            (λ place. PlaceOf (asked_paper lot) (severity_of place.table) place.column place.letter)
            (λ reason. plain_plan (asked_paper lot) ≡ refused (number_of reason) 0) }
    {
        let letter = asked_letter(lot)?;
        let table = match lot.severity {
            NORMAL => Table::Normal,
            TIGHTENED => Table::Tightened,
            _ => return Err(Reason::NoPlan),
        };
        Ok(Place {
            table,
            column: lot.column,
            letter,
        })
    }

    // The letter that gives the size. Letters count from A, which is 0, without I and O; columns from AQL 0.010, which
    // is 0. Down a column of a master table, of each box Ac alone, v for an arrow down and ^ for one up, stand
    //     v .. v  0  ^  v  1  2  3 ..  ^ .. ^
    // with Ac 0 where letter plus column is 14 and Ac 1 where it is 17, under tightened 15 and 18. So a letter before
    // Ac 0 or just after it goes to Ac 0, the next one to Ac 1, any past the last number back to that; all others stay.
    // (Columns that begin after Ac 0 or end before Ac 1: last_to_zero.) A lot of ten, level II, is B in Table 1, which
    // is 1; normal, AQL 0.10, is column 5. 1 + 5 is before 14, so it goes to Ac 0, whose letter is 14 - 5 = 9: K.
    fn landing_letter(self) -> u8
        ensures { result ≡ (landing_of (severity_of self.table) self.column self.letter).letter }
    {
        let column = self.column;
        let s = self.letter as u32 + column;
        let severity = self.table.severity();
        let zero_at = AC_ZERO + severity;
        let one_at = AC_ONE + severity;
        if s <= last_to_zero(zero_at, column) {
            return (zero_at - column) as u8;
        }
        if s < one_at {
            return (one_at - column) as u8;
        }
        let last_at = last_number(column);
        if last_at < s {
            return (last_at - column) as u8;
        }
        self.letter
    }

    // The plan of a lot of a size.
    fn plan(self, size: u32) -> SinglePlan
        ensures { plan_paper result ≡ plan_at size (landing_of (severity_of self.table) self.column self.letter) }
    {
        let at = self.landing_letter();
        cut_plan(size, at, size_of(at), ac_at(self.table, self.column, at))
    }

    // The box at the lot's own letter: "6 when the column is over 15 and the box is fractional"; else as ever.
    fn in_fractions(self, lot: Asked) -> Result<FractionalPlan, Reason>
        requires { PlaceOf (asked_paper lot) (severity_of self.table) self.column self.letter }
        ensures { reason_by fractional_paper result
            ≡ in_fractions (asked_paper lot)
            (plan_at lot.size (landing_of (severity_of self.table) self.column self.letter)) }
    {
        let share = share_at(lot.severity, lot.column, self.letter);
        if share == NO_SHARE {
            let plan = self.plan(lot.size);
            return Ok(FractionalPlan { plan, share });
        }
        if LAST_OF_ITEMS < lot.column {
            return Err(Reason::NoPlan);
        }
        let plan = own_plan(lot.size, self.letter);
        Ok(FractionalPlan { plan, share })
    }
}

// The plan of a letter's own box, with no arrow and Ac 0.
fn own_plan(size: u32, letter: u8) -> SinglePlan
    ensures { plan_paper result ≡ own_plan size letter }
{
    cut_plan(size, letter, size_of(letter), 0)
}

// The single plan of a bench without a book.
pub fn table_plan(lot: Asked) -> Result<SinglePlan, Reason>
    ensures { reason_by plan_paper result ≡ plain_plan (asked_paper lot) }
{
    Ok(Place::of(lot)?.plan(lot.size))
}

// "normal s 15 is 1/3 and s 16 is 1/2; tightened s 16 is 1/3 and s 17 is 1/2".
#[tactic(auto, using(crate::proofs::Shares::shares))]
pub fn share_at(severity: u32, column: u32, letter: u8) -> u8
    ensures { result ≡ share_at severity column letter }
{
    match (severity, letter as u64 + column as u64) {
        (0, 15) | (1, 16) => THIRD,
        (0, 16) | (1, 17) => HALF,
        _ => NO_SHARE,
    }
}

// The single plan of a bench without a book, in the mode of fractions.
pub fn fractional_table_plan(lot: Asked) -> Result<FractionalPlan, Reason>
    ensures { reason_by fractional_paper result
        ≡ and_then (plain_plan (asked_paper lot)) (in_fractions (asked_paper lot)) }
{
    Place::of(lot)?.in_fractions(lot)
}

// The normal Ac one column tighter at a letter: 0 where an arrow stands; column 0 has none tighter and is read itself.
#[tactic(auto, unfolding(rules::specs::Single::tighter_ac))]
pub fn tighter_ac(letter: u8, column: u32) -> u16
    ensures { result ≡ tighter_ac letter column }
{
    ac_at(Table::Normal, column.saturating_sub(1), letter)
}
