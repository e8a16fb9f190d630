// A reader's lines of lots and orders to a writer's log, turn by turn: what waits is written, the next piece is read
// where the last one is used up, and its lines are put into the output.
#![tactic(auto)]

ghost use Rattle.std.specs.Prelude.{◌+◌, ◌<◌, ◌≤◌, ◌≡◌, length, IfOk};
ghost use Rattle.lottexts.specs.Printing.{line_room};
ghost use Rattle.lotstream.specs.Turns.{Fresh, PutAfter, Logs, Opened, Written, Taken, Got, LastPut};
ghost use Rattle.lotstream.specs.Runs.{least_room, scene, Fits, Turned, Runs};

#[cfg(test)]
mod tests;

use lotlines::{LINE, State};
use std::io::{Read, Result, Write};

// The least output to work in: the header, and another line.
const LEAST: usize = 100;

// What is held between turns, how many bytes the piece has and how many of them were taken, how many bytes of the
// output wait, whether the input has ended, and whether a call failed, which was then said on standard error. Numbers
// and no slices: the memory is lent to the whole run. Two flags: `run` answers both, and a failed run may be over.
#[derive(Clone, Copy)]
pub struct Turn {
    pub state: State,
    pub length: usize,
    pub taken: usize,
    pub waiting: usize,
    pub over: bool,
    pub failed: bool,
}

// Before anything is read.
fn fresh() -> Turn
    ensures { Fresh result }
{
    Turn {
        state: lotlines::start(severity::ours()),
        length: 0,
        taken: 0,
        waiting: 0,
        over: false,
        failed: false,
    }
}

// The bytes of a line are put after those that wait to be written.
fn put(output: &mut [u8], waiting: usize, line: &[u8]) -> usize
    requires { waiting + length line.now ≤ length output.old }
    ensures { PutAfter waiting line.now output.old output.new result }
{
    let end = waiting + line.len();
    output[waiting..end].copy_from_slice(line);
    end
}

// One line. What its places keep to is asked here: a turn is public, and a caller may make any.
fn log_line(turn: Turn, piece: &[u8], output: &mut [u8]) -> Turn
    requires { (turn.taken < length piece.now) × (turn.waiting + line_room ≤ length output.old) }
    ensures { Logs turn piece.now output.old output.new result
        × (turn.taken < result.taken) }
{
    let fed = lotlines::feed(severity::ours(), turn.state, &piece[turn.taken..]);
    Turn {
        state: fed.state,
        taken: turn.taken + fed.taken,
        waiting: put(output, turn.waiting, fed.text.as_slice()),
        ..turn
    }
}

// The lines of a piece, until it is used up or another line might find no room: every byte once and in order.
fn log_lines(turn: Turn, piece: &[u8], output: &mut [u8]) -> Turn
    requires { (turn.taken ≤ length piece.now) × (turn.waiting ≤ length output.old) }
    ensures { Logs turn piece.now output.old output.new result
        × (result.waiting + line_room ≤ length output.old → result.taken ≡ length piece.now) }
{
    let mut done = turn;
    // It goes on by as many bytes as a line took, which no range says.
    while done.taken < piece.len() && done.waiting + LINE <= output.len() {
        done = log_line(done, piece, output);
    }
    done
}

// The header is put first.
fn open_log(output: &mut [u8]) -> Turn
    requires { least_room ≤ length output.old }
    ensures { Opened output.new result }
{
    Turn {
        waiting: put(output, 0, lotlines::header().as_slice()),
        ..fresh()
    }
}

// The last line may lack its newline.
fn put_last(turn: Turn, output: &mut [u8]) -> Turn
    requires { turn.waiting + line_room ≤ length output.old }
    ensures { LastPut turn output.old output.new result }
{
    let line = lotlines::finish(severity::ours(), turn.state);
    Turn {
        waiting: put(output, turn.waiting, line.as_slice()),
        ..turn
    }
}

// The one call that writes: how many bytes were written. The writer holds nothing back.
fn write_out<W: Write>(writer: &mut W, bytes: &[u8]) -> Result<usize>
    ensures { IfOk result (λ n. n ≡ length bytes.now) }
{
    writer.write_all(bytes)?;
    writer.flush()?;
    Ok(bytes.len())
}

// All that waits is written; after a failure, which is said, nothing waits.
fn write_waiting<W: Write, E: Eprint>(rt: &E, writer: &mut W, turn: Turn, output: &[u8]) -> Turn
    requires { turn.waiting ≤ length output.now }
    ensures { Written turn result }
{
    match write_out(writer, &output[..turn.waiting]) {
        Ok(written) => Turn {
            waiting: turn.waiting - written,
            ..turn
        },
        Err(e) => {
            let _ = eprintln!(rt; "lotlog: the log cannot be written: {e}");
            Turn {
                waiting: 0,
                failed: true,
                ..turn
            }
        }
    }
}

// What a read answers: the next piece, the end of the input, or that it failed, which is said.
fn take_piece<E: Eprint>(rt: &E, turn: Turn, read: Result<usize>) -> Turn
    ensures { Taken turn read result }
{
    match read {
        Ok(length) => Turn {
            length,
            taken: 0,
            over: length == 0,
            failed: false,
            ..turn
        },
        Err(e) => {
            let _ = eprintln!(rt; "lotlog: the input cannot be read: {e}");
            Turn {
                length: 0,
                taken: 0,
                over: true,
                failed: true,
                ..turn
            }
        }
    }
}

// The one call that reads, where the piece is used up.
fn next_piece<R: Read, E: Eprint>(rt: &E, reader: &mut R, turn: Turn, input: &mut [u8]) -> Turn
    requires { (turn.taken ≤ turn.length) × (turn.length ≤ length input.old) }
    ensures { Got turn input.old input.new result }
{
    if turn.taken < turn.length {
        return turn;
    }
    take_piece(rt, turn, reader.read(input))
}

// A turn: what waits is written before more is read, and nothing is read after the end or after a failure.
fn next_turn<R: Read, W: Write, E: Eprint>(
    rt: &E,
    reader: &mut R,
    writer: &mut W,
    turn: Turn,
    input: &mut [u8],
    output: &mut [u8],
) -> Turn
    requires { Fits (scene turn input.old output.old) }
    ensures { Turned (scene turn input.old output.old)
        (scene result input.new output.new) }
{
    let sent = write_waiting(rt, writer, turn, output);
    if sent.failed || sent.over {
        return sent;
    }
    let got = next_piece(rt, reader, sent, input);
    if got.failed {
        return got;
    }
    if got.over {
        return put_last(got, output);
    }
    let piece = &input[..got.length];
    log_lines(got, piece, output)
}

// A proved loop has to end, and nothing says that an input does: so many turns no run uses up. The lent memory is only
// worked in. The last turn is answered, and one that failed where the output is too small to work in: then nothing is
// read or written.
pub fn run<R: Read, W: Write, E: Eprint>(
    rt: &E,
    reader: &mut R,
    writer: &mut W,
    input: &mut [u8],
    output: &mut [u8],
) -> Turn
    ensures { Runs input.old output.old input.new output.new result }
{
    if output.len() < LEAST {
        return Turn {
            failed: true,
            ..fresh()
        };
    }
    let mut turn = open_log(output);
    for _turns in 0..u64::MAX {
        turn = next_turn(rt, reader, writer, turn, input, output);
        if turn.failed || (turn.over && turn.waiting == 0) {
            return turn;
        }
    }
    turn
}
