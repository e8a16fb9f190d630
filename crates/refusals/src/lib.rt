#![tactic(auto)]

// What an entry is refused by: one of document 01's numbered reasons, and the place that it names.
ghost use Rattle.std.specs.Prelude.{◌≡◌};
ghost use Rattle.refusals.specs.Paper.{number_of, at_start};

// "Refusals": the twelve, each by its number.
#[derive(Clone, Copy, Debug, PartialEq, Eq, PartialOrd, Ord)]
pub enum Reason {
    UnknownForm = 1,
    LotTooSmall = 2,
    NoSuchLevel = 3,
    NoSuchColumn = 4,
    WhileStopped = 5,
    NoPlan = 6,
    WrongLength = 7,
    IllegalItem = 8,
    OutOfRange = 9,
    NotStopped = 10,
    BufferShort = 11,
    BrokenBook = 12,
}

impl Reason {
    pub fn number(self) -> u8
        ensures { result ≡ number_of self }
    {
        self as u8
    }
}

// "A refusal carries its number (and place)": a byte of a book or a history, or an entry's position; else 0.
#[derive(Clone, Copy, Debug, PartialEq, Eq)]
pub struct Refusal {
    pub reason: Reason,
    pub place: usize,
}

impl From<Reason> for Refusal {
    ghost from_gives = { λ reason refusal. refusal ≡ at_start reason };

    fn from(reason: Reason) -> Refusal {
        Refusal { reason, place: 0 }
    }
}
