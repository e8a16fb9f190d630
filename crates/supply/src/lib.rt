#![tactic(auto)]

// The record of a supply, beside its clean run on a fractional plan, and what each event makes of both.
ghost use Rattle.std.specs.Prelude.{◌≡◌};
ghost use Rattle.rules.specs.Fractional.{share_at, has_fractional_plan, fraction_accepts};
ghost use Rattle.rules.specs.Supply.{fresh_supply, run_on, longer_run, lot_on, counts_on, clean_from, clean_by};
ghost use Rattle.rules.specs.Supply.{clean_after, clean_in_range, supply_in_range};
ghost use Rattle.rules.specs.Severity.{counted, add_two};
ghost use Rattle.rules.specs.Entries.{moved, next};
ghost use Rattle.severity.specs.Paper.{work_paper, lot_paper, origin_paper, event_paper};
ghost use Rattle.supply.specs.Paper.{clean_paper, supply_paper};
ghost use Rattle.refusals.specs.Paper.{answer_by};

use plans::LAST_OF_ITEMS;
use refusals::{Reason, Refusal};
use severity::{Event, Lot, NORMAL, Origin, Record, Work};

// The last letter of Table 1.
const LAST_LETTER: u8 = 15;

// How many of the newest original lots of this stay were clean on one fractional plan, held at 2, and that plan; all 0
// where there is none.
#[derive(Clone, Copy, Default, PartialEq, Eq)]
pub struct CleanRun {
    pub run: u8,
    pub letter: u8,
    pub column: u8,
}

#[derive(Clone, Copy)]
pub struct Supply {
    pub switching: Record,
    pub clean: CleanRun,
}

// Does a sample on a fraction pass, after so many clean ones?
pub fn fraction_accepts(share: u8, before: u8, total: u64) -> bool
    ensures { result ≡ fraction_accepts share before total }
{
    total == 0 || (total == 1 && u16::from(share) <= u16::from(before) + 1)
}

pub fn fresh(work: Work) -> Supply
    ensures { supply_paper result ≡ fresh_supply work.permission }
{
    Supply {
        switching: severity::fresh(work),
        clean: CleanRun::default(),
    }
}

// The run, as far as it is on this plan.
pub fn run_on(clean: CleanRun, letter: u8, column: u32) -> u8
    ensures { result ≡ run_on (clean_paper clean) letter column }
{
    if clean.letter == letter && u32::from(clean.column) == column {
        clean.run
    } else {
        0
    }
}

// The score of a lot: only normal keeps one.
pub fn counts(severity: u8, accepted: bool, points: Lot) -> Lot
    ensures { lot_paper result ≡ counted severity accepted (lot_paper points) }
{
    if !accepted {
        Lot::NotAccepted
    } else if severity == NORMAL {
        points
    } else {
        Lot::ScoreZero
    }
}

impl CleanRun {
    // One clean sample more on a plan.
    fn longer(self, letter: u8, column: u8) -> CleanRun
        ensures { clean_paper result ≡ longer_run (clean_paper self) letter column }
    {
        let before = run_on(self, letter, u32::from(column));
        CleanRun {
            run: before.min(1) + 1,
            letter,
            column,
        }
    }
}

impl Supply {
    // Is there a fractional plan: a fraction, at a letter of Table 1 and a column where items are 0 or 1?
    #[tactic(auto, using(crate::proofs::Laws::plan_laws))]
    fn has_fraction(self, letter: u8, column: u8) -> bool
        ensures { result ≡ has_fractional_plan self.switching.severity column letter }
    {
        let severity = u32::from(self.switching.severity);
        letter <= LAST_LETTER
            && u32::from(column) <= LAST_OF_ITEMS
            && plans::share_at(severity, u32::from(column), letter) != 0
    }

    // How a lot on a fractional plan counts: by the clean run, and as on Ac 0.
    fn fraction_lot(self, letter: u8, column: u8, total: u8) -> Lot
        ensures { lot_paper result ≡ counted self.switching.severity
            (fraction_accepts (share_at self.switching.severity column letter)
            (run_on (clean_paper self.clean) letter column) total) add_two }
    {
        let severity = self.switching.severity;
        let share = plans::share_at(u32::from(severity), u32::from(column), letter);
        let before = run_on(self.clean, letter, u32::from(column));
        let accepted = fraction_accepts(share, before, u64::from(total));
        counts(severity, accepted, Lot::AddTwo)
    }

    // How an original lot counts on a supply: on a fraction by the clean run, whatever it was handed over as.
    fn lot_on(self, from: Origin, lot: Lot) -> Lot
        ensures { lot_paper result
            ≡ lot_on self.switching.severity (clean_paper self.clean) (origin_paper from) (lot_paper lot) }
    {
        match from {
            Origin::Fraction(letter, column, total) if self.has_fraction(letter, column) => {
                self.fraction_lot(letter, column, total)
            }
            _ => lot,
        }
    }

    fn event_on(self, event: Event) -> Event
        ensures { event_paper result ≡ counts_on (supply_paper self) (event_paper event) }
    {
        match event {
            Event::Lot(from, lot) => Event::Lot(from, self.lot_on(from, lot)),
            other => other,
        }
    }

    // What an original lot makes of the clean run.
    fn clean_from(self, from: Origin) -> CleanRun
        ensures { clean_paper result ≡ clean_from self.switching.severity (clean_paper self.clean) (origin_paper from) }
    {
        match from {
            Origin::Fraction(letter, column, 0) if self.has_fraction(letter, column) => {
                self.clean.longer(letter, column)
            }
            _ => CleanRun::default(),
        }
    }

    // "resubmitted lots don't touch it", nor does an order.
    fn clean_by(self, event: Event) -> CleanRun
        ensures { clean_paper result ≡ clean_by self.switching.severity (clean_paper self.clean) (event_paper event) }
    {
        match event {
            Event::Lot(from, _) => self.clean_from(from),
            _ => self.clean,
        }
    }

    // A change of severity ends the run, the lot that changes it too.
    fn clean_after(self, severity: u8, event: Event) -> CleanRun
        ensures { clean_paper result
            ≡ clean_after self.switching.severity severity (clean_paper self.clean) (event_paper event) }
    {
        if severity == self.switching.severity {
            self.clean_by(event)
        } else {
            CleanRun::default()
        }
    }

    #[tactic(auto, using(crate::proofs::Laws::range_laws))]
    fn clean_in_range(self) -> bool
        ensures { result ≡ clean_in_range self.switching.severity (clean_paper self.clean) }
    {
        match self.clean.run {
            0 => self.clean == CleanRun::default(),
            1 | 2 => self.has_fraction(self.clean.letter, self.clean.column),
            _ => false,
        }
    }
}

pub fn in_range(old: Supply) -> bool
    ensures { result ≡ supply_in_range (supply_paper old) }
{
    severity::in_range(old.switching) && old.clean_in_range()
}

// What an event makes of a supply: of its record and of its clean run, each by its own step.
pub fn update(old: Supply, event: Event) -> Result<Supply, Refusal>
    ensures { answer_by supply_paper result ≡ moved (supply_paper old) (event_paper event) }
{
    if !in_range(old) {
        return Err(Refusal::from(Reason::UnknownForm));
    }
    let switching = severity::update(old.switching, old.event_on(event))?;
    let clean = old.clean_after(switching.severity, event);
    Ok(Supply { switching, clean })
}

// What a history byte makes of a supply.
#[tactic(auto, unfolding(rules::specs::Entries::next))]
pub fn next(work: Work, old: Supply, byte: u32) -> Result<Supply, Refusal>
    ensures { answer_by supply_paper result ≡ next (work_paper work) (supply_paper old) byte }
{
    update(old, severity::event_of(work, byte))
}
