#![tactic(auto)]

// One entry of a plan book, of each of the five kinds: its key, its numbers, and the plan that it holds.
ghost use Rattle.std.specs.Prelude.{◌≡◌, ◌≤◌, ◌<◌, length};
ghost use Rattle.rules.specs.Numbers.{numbers_of};
ghost use Rattle.rules.specs.Book.{kind_at, size_of, right, key_of, key_falls, same_key, could_hold};
ghost use Rattle.rules.specs.Book as paper;
ghost use Rattle.rules.specs.Book.{reduced_singles, staged, sequential, variables, reduced_of, sequential_of};
ghost use Rattle.rules.specs.Book.{variables_of};
ghost use Rattle.rules.specs.Layout.{entry_of};
ghost use Rattle.rules.specs.Entries.{variables_entry};
ghost use Rattle.entry.specs.Paper.{walk_paper, key_paper, pair_is, entry_read, rises_after, staged_read};
ghost use Rattle.entry.specs.Paper.{reduced_paper, staged_paper, sequential_paper, variables_paper};

mod keeping;
mod ranges;

// The kinds of section, in their order in the book; the fifth is laid out as the fourth.
// A kind is a number: a caller may hand over any.
pub const KINDS: usize = 5;

pub const REDUCED: usize = 0;

pub const STAGED: usize = 1;

pub const SEQUENTIAL: usize = 2;

pub const VARIABLES: usize = 3;

pub const SIGMA: usize = 4;

// A reduced single, before it is cut to the lot.
#[derive(Clone, Copy)]
pub struct ReducedSingle {
    pub n: u16,
    pub ac: u16,
}

// One stage of a staged plan.
#[derive(Clone, Copy, PartialEq, Eq, Default)]
pub struct Stage {
    pub size: u16,
    pub ac: u16,
    pub re: u16,
}

// A plan's stages, and 0 past them. Seven places with a count: a row of a book has seven, and there is no heap.
#[derive(Clone, Copy, PartialEq, Eq, Default)]
pub struct StagedPlan {
    pub count: u8,
    pub stages: [Stage; 7],
}

// hA and hR in thousandths, g in hundred-thousandths, the last item nt and its acceptance number.
#[derive(Clone, Copy)]
pub struct SequentialPlan {
    pub ha: u16,
    pub hr: u16,
    pub g: u16,
    pub nt: u16,
    pub at_nt: u16,
}

// How many readings, and k in thousandths.
#[derive(Clone, Copy)]
pub struct VariablesPlan {
    pub n: u16,
    pub k: u16,
}

// n, and a K for each side; for one limit both are its own.
#[derive(Clone, Copy)]
pub struct SidesPlan {
    pub n: u16,
    pub upper_k: u16,
    pub lower_k: u16,
}

// What an entry is looked up by; a reduced single has no severity in its key.
#[derive(Clone, Copy, Default)]
pub struct Key {
    pub severity: u32,
    pub letter: u8,
    pub column: u32,
}

// Why an entry cannot be read to its end: a number is not right, at its place from the entry's start, or is missing.
#[derive(Clone, Copy, PartialEq, Eq, Debug)]
pub enum Fault {
    Broken(usize),
    Short,
}

// How many numbers a key has.
pub fn key_len(kind: usize) -> usize
    ensures { (result ≡ (kind_at kind).key) × (result ≤ 3) }
{
    if kind == REDUCED { 2 } else { 3 }
}

// How many numbers an entry has, by the number after its key.
pub fn entry_size(kind: usize, after: u16) -> usize
    ensures { (result ≡ (kind_at kind).size after) × (result < 200000) }
{
    match kind {
        REDUCED => 4,
        STAGED => 4 + 3 * (after as usize),
        SEQUENTIAL => 8,
        _ => 5,
    }
}

// How many numbers the entry that e begins with has.
pub fn size_at(kind: usize, e: &[u8]) -> usize
    ensures { (result ≡ size_of (kind_at kind) (numbers_of e.now)) × (result < 200000) }
{
    let after = numbers::number(e, key_len(kind));
    entry_size(kind, after)
}

// Is the number at place i of the entry right?
// The place is in the entry: a type for an entry and a place would be no plainer than the fact.
fn right_at(kind: usize, e: &[u8], i: usize) -> bool
    requires { i < length (numbers_of e.now) }
    ensures { result ≡ right (kind_at kind) (numbers_of e.now) i }
{
    let x = numbers::number(e, i);
    ranges::fits(kind, i, x) && keeping::keeps_rule(kind, e, i, x)
}

// The numbers of the entry that the stretch begins with, one by one.
#[inline(always)]
fn numbers_right(kind: usize, e: &[u8]) -> Result<usize, Fault>
    ensures { walk_paper result ≡ entry_read kind (numbers_of e.now) }
{
    let size = size_at(kind, e);
    let whole = numbers::count(e);
    for i in 0..size {
        if whole <= i {
            return Err(Fault::Short);
        }
        if !right_at(kind, e, i) {
            return Err(Fault::Broken(i));
        }
    }
    Ok(size)
}

// The entry that the stretch begins with: its end, or the first of its numbers that is missing or not right.
pub fn entry_numbers(kind: usize, e: &[u8]) -> Result<usize, Fault>
    ensures { walk_paper result ≡ entry_read kind (numbers_of e.now) }
{
    numbers_right(kind, e)
}

// The same of a sequential entry, whose loop the compiler makes for it alone only where it is told to.
#[inline(always)]
pub fn sequential_numbers(e: &[u8]) -> Result<usize, Fault>
    ensures { walk_paper result ≡ entry_read 2 (numbers_of e.now) }
{
    numbers_right(SEQUENTIAL, e)
}

// Does the key of the entry that e begins with come after the key that `before` begins with?
fn rises_after(kind: usize, before: &[u8], e: &[u8]) -> bool
    requires { (kind_at kind).key ≤ length (numbers_of e.now) }
    ensures { result ≡ rises_after kind (numbers_of before.now) (numbers_of e.now) }
{
    let have = numbers::count(before);
    for i in 0..key_len(kind) {
        if have <= i {
            return true;
        }
        let x = numbers::number(before, i);
        let y = numbers::number(e, i);
        if x != y {
            return x < y;
        }
    }
    false
}

// Is the whole key of the entry there, and does it not rise over that of the entry before it?
pub fn key_falls(kind: usize, before: &[u8], e: &[u8]) -> bool
    ensures { result
        ≡ key_falls (kind_at kind) (key_of (kind_at kind) (numbers_of before.now))
        (numbers_of e.now) }
{
    key_len(kind) <= numbers::count(e) && !rises_after(kind, before, e)
}

// The entry that e begins with, after the entry `before`, which is empty where there is none. Each kind goes on as a
// constant, so that the loop is compiled for it alone.
pub fn walk_entry(kind: usize, before: &[u8], e: &[u8]) -> Result<usize, Fault>
    ensures { walk_paper result
        ≡ paper.entry (kind_at kind) (key_of (kind_at kind) (numbers_of before.now))
        (numbers_of e.now) }
{
    if key_falls(kind, before, e) {
        return Err(Fault::Broken(0));
    }
    match kind {
        REDUCED => entry_numbers(REDUCED, e),
        STAGED => entry_numbers(STAGED, e),
        SEQUENTIAL => sequential_numbers(e),
        _ => entry_numbers(VARIABLES, e),
    }
}

// Are the numbers at place i and after it the key's letter and column?
fn pair_is(e: &[u8], i: usize, key: Key) -> bool
    requires { i ≤ 1 }
    ensures { result ≡ pair_is (numbers_of e.now) i key.letter key.column }
{
    let next = i + 1;
    numbers::number(e, i) == key.letter as u16
        && (next < numbers::count(e)) & (numbers::number(e, next) as u32 == key.column)
}

// Is the entry that e begins with under the key?
pub fn is_under(kind: usize, key: Key, e: &[u8]) -> bool
    ensures { result ≡ same_key (key_of (kind_at kind) (numbers_of e.now)) (key_paper (kind_at kind) key) }
{
    if kind == REDUCED {
        return pair_is(e, 0, key);
    }
    numbers::number(e, 0) as u32 == key.severity && pair_is(e, 1, key)
}

// The reduced single of the entry that e begins with.
pub fn reduced_at(e: &[u8]) -> ReducedSingle
    ensures { reduced_paper result ≡ reduced_of (entry_of reduced_singles (numbers_of e.now)) }
{
    ReducedSingle {
        n: numbers::number(e, 2),
        ac: numbers::number(e, 3),
    }
}

// The staged plan of the entry that e begins with; one that says over seven stages has none.
pub fn staged_at(e: &[u8]) -> StagedPlan
    ensures { staged_paper result ≡ staged_read (entry_of staged (numbers_of e.now)) }
{
    let count = numbers::number(e, 3);
    if 7 < count {
        return StagedPlan::default();
    }
    let m = count as usize;
    let mut stages = [Stage::default(); 7];
    for i in 0..m {
        stages[i] = Stage {
            size: numbers::number(e, 4 + i),
            ac: numbers::number(e, 4 + m + 2 * i),
            re: numbers::number(e, 5 + m + 2 * i),
        };
    }
    StagedPlan {
        count: count as u8,
        stages,
    }
}

// The sequential plan of the entry that e begins with.
pub fn sequential_at(e: &[u8]) -> SequentialPlan
    ensures { sequential_paper result ≡ sequential_of (entry_of sequential (numbers_of e.now)) }
{
    SequentialPlan {
        ha: numbers::number(e, 3),
        hr: numbers::number(e, 4),
        g: numbers::number(e, 5),
        nt: numbers::number(e, 6),
        at_nt: numbers::number(e, 7),
    }
}

// The variables plan of the entry that e begins with.
pub fn variables_at(e: &[u8]) -> VariablesPlan
    ensures { variables_paper result ≡ variables_of (entry_of variables (numbers_of e.now)) }
{
    VariablesPlan {
        n: numbers::number(e, 3),
        k: numbers::number(e, 4),
    }
}

// Could a sound book hold the plan?
pub fn variables_holds(plan: VariablesPlan) -> bool
    ensures { result ≡ could_hold variables (variables_entry (variables_paper plan)) }
{
    ranges::fits(VARIABLES, 3, plan.n) & ranges::fits(VARIABLES, 4, plan.k)
}
