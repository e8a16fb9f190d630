#![tactic(auto)]

// The severity record of one supply, and what each event makes of it, by itself or in a history.
ghost use Rattle.std.specs.Prelude.{◌≡◌, ◌&&◌};
ghost use Rattle.rules.specs.Severity.{accepted, started, fresh, settled, score_after, window_after, lot_normal};
ghost use Rattle.rules.specs.Severity.{lot_tightened, on_lot, on_resubmitted, on_order, on_corrective, step, in_range};
ghost use Rattle.rules.specs.Severity.{on_normal, on_tightened, score_and_window, no_score_or_window, run_and_count};
ghost use Rattle.rules.specs.Severity.{no_run_or_count, on_record};
ghost use Rattle.rules.specs.History.{ours, event_in, byte_of};
ghost use Rattle.severity.specs.Paper.{work_paper, lot_paper, event_paper, record_paper, Walks};
ghost use Rattle.refusals.specs.Paper.{answer_by, reason_by};

use refusals::{Reason, Refusal};

// The severities. Numbers: a caller may hand over any, and `in_range` answers for it.
pub const NORMAL: u8 = 0;

pub const TIGHTENED: u8 = 1;

pub const REDUCED: u8 = 2;

pub const STOPPED: u8 = 3;

// The work that a supply's history belongs to: the permission that its start names, and whether it knows resubmitted
// lots.
#[derive(Clone, Copy)]
pub struct Work {
    pub permission: bool,
    pub resubmission: bool,
}

// The window is five bits, the newest lot in the lowest, 1 for a lot not accepted. No two of score, run, count and
// window stand side by side: the compiler would keep them as one wide number, and take it apart at every step.
#[derive(Clone, Copy, Default)]
pub struct Record {
    pub score: u8,
    pub severity: u8,
    pub run: u8,
    pub steady: bool,
    pub count: u8,
    pub permission: bool,
    pub window: u8,
}

// How an original lot counts, by the history byte that says so.
#[derive(Clone, Copy, PartialEq, Eq)]
pub enum Lot {
    AddThree = 0,
    AddTwo = 1,
    ScoreZero = 2,
    NotAccepted = 3,
}

// How an original lot entered: typed as a history byte; closed from its plan and sample; or so on a fractional plan,
// by its letter, its column and its total, which a closing holds at 2.
#[derive(Clone, Copy)]
pub enum Origin {
    Typed,
    Sampled,
    Fraction(u8, u8, u8),
}

// Unknown is the rules' own event, of a byte of no known form: the step refuses it.
#[derive(Clone, Copy)]
pub enum Event {
    Lot(Origin, Lot),
    Resubmitted,
    Steady(bool),
    Permission(bool),
    Corrective,
    Unknown,
}

// "Starts: .. permission no", and every byte of the list is known.
pub fn ours() -> Work
    ensures { work_paper result ≡ ours }
{
    Work {
        permission: false,
        resubmission: true,
    }
}

pub fn fresh(work: Work) -> Record
    ensures { record_paper result ≡ fresh work.permission }
{
    Record {
        severity: NORMAL,
        permission: work.permission,
        ..Record::default()
    }
}

impl Lot {
    fn is_accepted(self) -> bool
        ensures { result ≡ accepted (lot_paper self) }
    {
        self != Lot::NotAccepted
    }

    fn score_after(self, score: u8) -> u8
        ensures { result ≡ score_after (lot_paper self) score }
    {
        match self {
            Lot::AddThree => score.min(27) + 3,
            Lot::AddTwo => score.min(28) + 2,
            Lot::ScoreZero | Lot::NotAccepted => 0,
        }
    }

    fn window_after(self, window: u8) -> u8
        ensures { result ≡ window_after (lot_paper self) window }
    {
        2 * (window % 16) + u8::from(!self.is_accepted())
    }
}

impl Record {
    // A stay begins with its figures cleared; reduced and stopped keep none.
    fn started(self, severity: u8) -> Record
        ensures { record_paper result ≡ started severity self.steady self.permission }
    {
        Record {
            severity,
            score: 0,
            run: 0,
            count: 0,
            window: 0,
            ..self
        }
    }

    fn on_normal(self, score: u8, window: u8) -> Record
        ensures { record_paper result ≡ on_normal score window self.steady self.permission }
    {
        Record {
            score,
            window,
            ..self.started(NORMAL)
        }
    }

    fn on_tightened(self, run: u8, count: u8) -> Record
        ensures { record_paper result ≡ on_tightened run count self.steady self.permission }
    {
        Record {
            run,
            count,
            ..self.started(TIGHTENED)
        }
    }

    // Normal after an original lot or an order. The test of what is due stands here: a function that answers it alone
    // would be worked out whole at every lot.
    fn settle(self, score: u8, window: u8) -> Record
        ensures { record_paper result ≡ settled score window self.steady self.permission }
    {
        if 30 <= score && self.steady && self.permission {
            self.started(REDUCED)
        } else {
            self.on_normal(score, window)
        }
    }

    fn lot_normal(self, lot: Lot) -> Record
        ensures { record_paper result ≡ lot_normal (lot_paper lot) self.score self.window self.steady self.permission }
    {
        let window = lot.window_after(self.window);
        // Accepted comes first, so that such a lot counts no ones of the window.
        if lot.is_accepted() {
            self.settle(lot.score_after(self.score), window)
        } else if 2 <= window.count_ones() {
            self.started(TIGHTENED)
        } else {
            self.settle(0, window)
        }
    }

    fn lot_tightened(self, lot: Lot) -> Record
        ensures { record_paper result ≡ lot_tightened (lot_paper lot) self.run self.count self.steady self.permission }
    {
        if lot.is_accepted() {
            if 4 <= self.run {
                self.started(NORMAL)
            } else {
                self.on_tightened(self.run + 1, self.count)
            }
        } else if 4 <= self.count {
            self.started(STOPPED)
        } else {
            self.on_tightened(0, self.count + 1)
        }
    }

    #[tactic(auto, using(crate::proofs::Laws::lot_laws))]
    fn on_lot(self, lot: Lot) -> Result<Record, Reason>
        ensures { reason_by record_paper result ≡ on_lot self.severity (lot_paper lot) (record_paper self) }
    {
        match self.severity {
            NORMAL => Ok(self.lot_normal(lot)),
            TIGHTENED => Ok(self.lot_tightened(lot)),
            REDUCED if lot.is_accepted() => Ok(self),
            REDUCED => Ok(self.started(NORMAL)),
            _ => Err(Reason::WhileStopped),
        }
    }

    #[tactic(auto, using(crate::proofs::Laws::resubmission_laws))]
    fn on_resubmitted(self) -> Result<Record, Reason>
        ensures { reason_by record_paper result ≡ on_resubmitted self.severity (record_paper self) }
    {
        if self.severity < STOPPED {
            Ok(self)
        } else {
            Err(Reason::WhileStopped)
        }
    }

    // An order that leaves steady and permission so; where `stands` is false it withdraws. Both come beside the record:
    // `step` would copy them at every byte if it changed a record before the call.
    #[tactic(auto, using(crate::proofs::Laws::order_laws))]
    fn on_order(self, stands: bool, steady: bool, permission: bool) -> Record
        ensures { record_paper result ≡ on_order self.severity stands steady permission (record_paper self) }
    {
        let ordered = Record {
            steady,
            permission,
            ..self
        };
        match self.severity {
            NORMAL => ordered.settle(self.score, self.window),
            TIGHTENED => ordered.on_tightened(self.run, self.count),
            REDUCED if stands => ordered.started(REDUCED),
            REDUCED => ordered.started(NORMAL),
            _ => ordered.started(STOPPED),
        }
    }

    #[tactic(auto, using(crate::proofs::Laws::corrective_laws))]
    fn on_corrective(self) -> Result<Record, Reason>
        ensures { reason_by record_paper result ≡ on_corrective self.severity (record_paper self) }
    {
        if self.severity < STOPPED {
            Err(Reason::NotStopped)
        } else {
            Ok(self.started(TIGHTENED))
        }
    }

    // What an event makes of a record, in range or not.
    fn step(self, event: Event) -> Result<Record, Reason>
        ensures { reason_by record_paper result ≡ step (record_paper self) (event_paper event) }
    {
        match event {
            Event::Lot(_, lot) => self.on_lot(lot),
            Event::Resubmitted => self.on_resubmitted(),
            Event::Steady(steady) => Ok(self.on_order(steady, steady, self.permission)),
            Event::Permission(permission) => Ok(self.on_order(permission, self.steady, permission)),
            Event::Corrective => self.on_corrective(),
            Event::Unknown => Err(Reason::UnknownForm),
        }
    }

    fn no_score_or_window(self) -> bool
        ensures { result ≡ no_score_or_window (record_paper self) }
    {
        self.score == 0 && self.window == 0
    }

    fn no_run_or_count(self) -> bool
        ensures { result ≡ no_run_or_count (record_paper self) }
    {
        self.run == 0 && self.count == 0
    }
}

pub fn in_range(old: Record) -> bool
    ensures { result ≡ in_range (record_paper old) }
{
    match old.severity {
        NORMAL => old.score <= 30
            && old.window < 32
            && old.window.count_ones() <= 1
            && old.no_run_or_count(),
        TIGHTENED => old.run <= 4 && old.count <= 4 && old.no_score_or_window(),
        REDUCED | STOPPED => old.no_score_or_window() && old.no_run_or_count(),
        _ => false,
    }
}

// The event of a history byte.
#[tactic(auto, using(crate::proofs::Laws::bytes))]
pub fn event_of(work: Work, byte: u32) -> Event
    ensures { event_paper result ≡ event_in (work_paper work) byte }
{
    match byte {
        0 => Event::Lot(Origin::Typed, Lot::AddThree),
        1 => Event::Lot(Origin::Typed, Lot::AddTwo),
        2 => Event::Lot(Origin::Typed, Lot::ScoreZero),
        3 => Event::Lot(Origin::Typed, Lot::NotAccepted),
        4 if work.resubmission => Event::Resubmitted,
        5 => Event::Steady(true),
        6 => Event::Steady(false),
        7 => Event::Permission(true),
        8 => Event::Permission(false),
        9 => Event::Corrective,
        _ => Event::Unknown,
    }
}

// The history byte of an event, or 10 for one that has none: the rules' number, and no known byte.
pub fn byte_of(event: Event) -> u8
    ensures { result ≡ byte_of (event_paper event) }
{
    match event {
        Event::Lot(_, lot) => lot as u8,
        Event::Resubmitted => 4,
        Event::Steady(true) => 5,
        Event::Steady(false) => 6,
        Event::Permission(true) => 7,
        Event::Permission(false) => 8,
        Event::Corrective => 9,
        Event::Unknown => 10,
    }
}

// A history that goes on from a record that a caller hands over: the record after it, and in the lent buffer, as far as
// that reaches, the severity after each byte. A record out of range is refused. All that moves a record goes through
// this one loop, so that the step is compiled into it.
pub fn walk(work: Work, from: Record, history: &[u8], out: &mut [u8]) -> Result<Record, Refusal>
    ensures { Walks (work_paper work) (record_paper from) history.now out.old out.new result }
{
    if !in_range(from) {
        return Err(Refusal::from(Reason::UnknownForm));
    }
    let mut held = from;
    for (i, &byte) in history.iter().enumerate() {
        match held.step(event_of(work, u32::from(byte))) {
            Ok(new) => held = new,
            Err(reason) => return Err(Refusal { reason, place: i }),
        }
        if i < out.len() {
            out[i] = held.severity;
        }
    }
    Ok(held)
}

// What an event makes of a record: what the event's byte does.
pub fn update(old: Record, event: Event) -> Result<Record, Refusal>
    ensures { answer_by record_paper result
        ≡ on_record (record_paper old) (step (record_paper old) (event_paper event)) }
{
    walk(ours(), old, &[byte_of(event)], &mut [])
}
