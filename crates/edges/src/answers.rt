// What a line shows behind the name of its case.
use choosing::Lettered;
use closing::Closed;
use entry::{SequentialPlan, StagedPlan, VariablesPlan};
use plans::{FractionalPlan, SinglePlan, Verdict};
use refusals::Refusal;
use std::fmt;

// Letters by their codes.
const NAMES: [char; 17] = [
    'A', 'B', 'C', 'D', 'E', 'F', 'G', 'H', 'J', 'K', 'L', 'M', 'N', 'P', 'Q', 'R', 'S',
];

// What was asked for, or why it is refused.
#[derive(Drop)]
pub(crate) struct Answer<T>(pub(crate) Result<T, Refusal>);

impl<T: fmt::Display> fmt::Display for Answer<T> {
    fn fmt<W: fmt::Write>(&self, f: &mut fmt::Formatter<W>) -> fmt::Result {
        match &self.0 {
            Ok(shown) => write!(f, "{shown}"),
            Err(refusal) => {
                let number = refusal.reason.number();
                write!(f, "refused {number} at {}", refusal.place)
            }
        }
    }
}

#[derive(Clone, Copy)]
pub(crate) struct Letter(pub(crate) u8);

impl fmt::Display for Letter {
    fn fmt<W: fmt::Write>(&self, f: &mut fmt::Formatter<W>) -> fmt::Result {
        match NAMES.get(self.0 as usize) {
            Some(name) => write!(f, "{name}"),
            None => Ok(()),
        }
    }
}

// A size that is the whole lot has a W, and the table's own size beside it.
#[derive(Clone, Copy)]
pub(crate) struct Single(pub(crate) SinglePlan);

impl fmt::Display for Single {
    fn fmt<W: fmt::Write>(&self, f: &mut fmt::Formatter<W>) -> fmt::Result {
        let plan = self.0;
        write!(f, "{}, {}", Letter(plan.letter), plan.n)?;
        if plan.cut {
            write!(f, "W of {}", plan.table_n)?;
        }
        write!(f, ", Ac {}", plan.ac)
    }
}

#[derive(Clone, Copy)]
pub(crate) struct Fractional(pub(crate) FractionalPlan);

impl fmt::Display for Fractional {
    fn fmt<W: fmt::Write>(&self, f: &mut fmt::Formatter<W>) -> fmt::Result {
        write!(f, "{}, share {}", Single(self.0.plan), self.0.share)
    }
}

// A number of each stage, 0 past the stages.
#[derive(Clone, Copy)]
struct Places([u16; 7]);

impl fmt::Display for Places {
    fn fmt<W: fmt::Write>(&self, f: &mut fmt::Formatter<W>) -> fmt::Result {
        for number in self.0 {
            write!(f, " {number}")?;
        }
        Ok(())
    }
}

#[derive(Clone, Copy)]
pub(crate) struct Staged(pub(crate) Lettered<StagedPlan>);

impl fmt::Display for Staged {
    fn fmt<W: fmt::Write>(&self, f: &mut fmt::Formatter<W>) -> fmt::Result {
        let Lettered { letter, plan } = self.0;
        write!(f, "{}, stages {}", Letter(letter), plan.count)?;
        write!(f, ", sizes{}", Places(plan.stages.map(|stage| stage.size)))?;
        write!(f, ", Ac{}", Places(plan.stages.map(|stage| stage.ac)))?;
        write!(f, ", Re{}", Places(plan.stages.map(|stage| stage.re)))
    }
}

#[derive(Clone, Copy)]
pub(crate) struct Sequential(pub(crate) Lettered<SequentialPlan>);

impl fmt::Display for Sequential {
    fn fmt<W: fmt::Write>(&self, f: &mut fmt::Formatter<W>) -> fmt::Result {
        let Lettered { letter, plan } = self.0;
        write!(f, "{}, hA {}, hR {}", Letter(letter), plan.ha, plan.hr)?;
        write!(f, ", g {}, nt {}, At {}", plan.g, plan.nt, plan.at_nt)
    }
}

#[derive(Clone, Copy)]
pub(crate) struct Variables(pub(crate) Lettered<VariablesPlan>);

impl fmt::Display for Variables {
    fn fmt<W: fmt::Write>(&self, f: &mut fmt::Formatter<W>) -> fmt::Result {
        let Lettered { letter, plan } = self.0;
        write!(f, "{}, n {}, K {}", Letter(letter), plan.n, plan.k)
    }
}

#[derive(Clone, Copy)]
pub(crate) struct Judgement(pub(crate) Verdict);

impl fmt::Display for Judgement {
    fn fmt<W: fmt::Write>(&self, f: &mut fmt::Formatter<W>) -> fmt::Result {
        let word = if self.0.accepted {
            "accepts"
        } else {
            "rejects"
        };
        write!(f, "{word} at {}", self.0.used)
    }
}

// The stage that decided, the history byte, and the record after.
#[derive(Clone, Copy)]
pub(crate) struct Lot<P>(pub(crate) Closed<P>);

impl<P: Copy> fmt::Display for Lot<P> {
    fn fmt<W: fmt::Write>(&self, f: &mut fmt::Formatter<W>) -> fmt::Result {
        let verdict = self.0.judged.verdict;
        let record = self.0.supply_after.switching;
        let byte = severity::byte_of(self.0.event);
        write!(
            f,
            "stage {} of {}, byte {byte}",
            verdict.stage, verdict.stages
        )?;
        write!(f, ", severity {}, score {}", record.severity, record.score)
    }
}

// All the numbers that lent memory holds.
#[derive(Clone, Copy)]
pub(crate) struct Numbers<'a>(pub(crate) &'a [u8]);

impl fmt::Display for Numbers<'_> {
    fn fmt<W: fmt::Write>(&self, f: &mut fmt::Formatter<W>) -> fmt::Result {
        for i in 0..numbers::count(self.0) {
            write!(f, " {}", numbers::number(self.0, i))?;
        }
        Ok(())
    }
}
