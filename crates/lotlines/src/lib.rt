#![tactic(auto)]

// lotlog's lines: bytes of input in pieces of any length, to lines of output, in constant memory.
ghost use Rattle.std.specs.Prelude.{◌≡◌};
ghost use Rattle.rules.specs.Entries.{close_total};
ghost use Rattle.rules.specs.Log.{logged_lot, logged_as};
ghost use Rattle.rules.specs.Feeding.{line_begun, ended, finished};
ghost use Rattle.refusals.specs.Paper.{answer_by};
ghost use Rattle.severity.specs.Paper.{work_paper};
ghost use Rattle.supply.specs.Paper.{supply_paper};
ghost use Rattle.closing.specs.Paper.{offered_paper};
ghost use Rattle.lotforms.specs.Reading.{line_paper};
ghost use Rattle.lottexts.specs.Texts.{text_of};
ghost use Rattle.lotlines.specs.Paper.{logged_paper, logged_on, grown, begun_paper, held_paper, held_with};
ghost use Rattle.lotlines.specs.Paper.{Starts, Feeds};

use closing::Offered;
pub use lotforms::LONGEST;
use lotforms::Line;
pub use lottexts::{LINE, Text, header};
use refusals::{Reason, Refusal};
use severity::Work;
use supply::Supply;

// What a line leaves: the record, and what it printed. What makes it is compiled into `feed` (`inline(always)`): a text
// is not handed from each function to the next.
#[derive(Clone, Copy)]
struct Logged {
    supply: Supply,
    text: Text<LINE>,
}

#[inline(always)]
fn log_lot(supply: Supply, line: u64, lot: Offered, total: u32) -> Result<Logged, Refusal>
    ensures { logged_on line (supply_paper supply) (answer_by logged_paper result)
        ≡ logged_lot line (supply_paper supply) (close_total (supply_paper supply) (offered_paper lot) total) }
{
    let closed = closing::close_total(supply, lot, total)?;
    let after = closed.supply_after;
    let text = lottexts::lot(
        line,
        supply.switching.severity,
        closed.judged.plan,
        closed.judged.verdict.accepted,
        after.switching.severity,
        after.switching.score,
    );
    Ok(Logged {
        supply: after,
        text,
    })
}

// What a line leaves that is not refused.
#[tactic(auto, unfolding(rules::specs::Log::logged_as))]
#[inline(always)]
fn log_accepted(
    work: Work,
    supply: Supply,
    line: u64,
    said: Option<Line>,
) -> Result<Logged, Refusal>
    ensures { logged_on line (supply_paper supply) (answer_by logged_paper result)
        ≡ logged_as (work_paper work) line (supply_paper supply) (line_paper said) }
{
    match said.ok_or(Reason::UnknownForm)? {
        Line::Lot {
            again,
            size,
            level,
            column,
            total,
        } => {
            let lot = Offered {
                again,
                size,
                level,
                column,
            };
            log_lot(supply, line, lot, total)
        }
        Line::Order(order) => {
            let after = supply::next(work, supply, order.byte())?;
            let switching = after.switching;
            let text = lottexts::order(line, switching.severity, switching.score);
            Ok(Logged {
                supply: after,
                text,
            })
        }
    }
}

#[inline(always)]
fn log_as(work: Work, supply: Supply, line: u64, said: Option<Line>) -> Logged
    ensures { logged_paper result ≡ logged_as (work_paper work) line (supply_paper supply) (line_paper said) }
{
    match log_accepted(work, supply, line, said) {
        Ok(logged) => logged,
        Err(refusal) => Logged {
            supply,
            text: lottexts::refused(line, refusal.reason.number()),
        },
    }
}

// Between pieces: the record, and the number and the bytes of the unfinished line; `None` for more than LONGEST.
#[derive(Clone, Copy)]
pub struct State {
    pub supply: Supply,
    pub line: u64,
    pub begun: Option<Text<LONGEST>>,
}

// What is held then, how many bytes of the piece were taken, and what was printed.
#[derive(Clone, Copy)]
pub struct Fed {
    pub state: State,
    pub taken: usize,
    pub text: Text<LINE>,
}

// An empty log.
pub fn start(work: Work) -> State
    ensures { Starts (work_paper work) result }
{
    State {
        supply: supply::fresh(work),
        line: 1,
        begun: Some(Text::new()),
    }
}

// The unfinished line with more bytes.
fn grow(begun: Option<Text<LONGEST>>, bytes: &[u8]) -> Option<Text<LONGEST>>
    ensures { begun_paper result ≡ grown (begun_paper begun) bytes.now }
{
    let mut line = begun?;
    line.try_extend(bytes).ok()?;
    Some(line)
}

// What the unfinished line says.
fn line_begun(work: Work, state: &State) -> Option<Line>
    ensures { line_paper result ≡ line_begun (work_paper work) (begun_paper state.now.begun) }
{
    let line = state.begun.as_ref()?;
    lotforms::line_of(work.resubmission, line.as_slice())
}

// What the line says that ends with these bytes. Where nothing was begun before them they are all of it, and are read
// where they stand.
#[inline(always)]
fn line_with(work: Work, state: &State, bytes: &[u8]) -> Option<Line>
    ensures { line_paper result ≡ line_begun (work_paper work) (grown (begun_paper state.now.begun) bytes.now) }
{
    let begun = state.begun.as_ref()?;
    if begun.as_slice().is_empty() {
        return lotforms::line_of(work.resubmission, bytes);
    }
    let line = grow(state.begun, bytes)?;
    lotforms::line_of(work.resubmission, line.as_slice())
}

// The unfinished line is finished with these bytes.
#[inline(always)]
fn end_with(work: Work, state: &State, bytes: &[u8]) -> Logged
    ensures { logged_paper result ≡ ended (work_paper work) (held_with state.now bytes.now) }
{
    log_as(
        work,
        state.supply,
        state.line,
        line_with(work, state, bytes),
    )
}

// The unfinished line is finished.
fn end_line(work: Work, state: &State) -> Logged
    ensures { logged_paper result ≡ ended (work_paper work) (held_paper state.now) }
{
    log_as(work, state.supply, state.line, line_begun(work, state))
}

// Bytes of the piece are taken until one line is finished, which prints its output line.
pub fn feed(work: Work, state: State, piece: &[u8]) -> Fed
    ensures { Feeds (work_paper work) state piece.now result }
{
    let bytes = lotforms::up_to(b'\n', piece);
    let taken = bytes.len();
    if taken == piece.len() {
        return Fed {
            state: State {
                begun: grow(state.begun, bytes),
                ..state
            },
            taken,
            text: Text::new(),
        };
    }
    let logged = end_with(work, &state, bytes);
    Fed {
        state: State {
            supply: logged.supply,
            line: state.line.saturating_add(1),
            begun: Some(Text::new()),
        },
        taken: taken + 1,
        text: logged.text,
    }
}

// "The last line may lack its newline": what an unfinished line prints at the end of the input.
pub fn finish(work: Work, state: State) -> Text<LINE>
    ensures { text_of result ≡ finished (work_paper work) (held_paper state) }
{
    if state.begun.is_some_and(|line| line.as_slice().is_empty()) {
        return Text::new();
    }
    end_line(work, &state).text
}
