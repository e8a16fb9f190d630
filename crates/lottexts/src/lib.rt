#![tactic(auto)]

// The lines of the output, each a text of its own.
ghost use Rattle.std.specs.Prelude.{◌≡◌, ◌+◌, ◌≤◌, ◌++◌, length, get_or, cond};
ghost use Rattle.rules.specs.Ascii.{ascii};
ghost use Rattle.rules.specs.Log.{decimal, header, refused_line, order_printed, lot_printed, size_text};
ghost use Rattle.plans.specs.Paper.{plan_paper};
ghost use Rattle.lottexts.specs.Texts.{text_of};
ghost use Rattle.lottexts.specs.Printing.{line_room, after_text};

mod text;

use itoa::{Buffer, Integer};
use plans::SinglePlan;
pub use text::{Full, Text};

// The most bytes of a line.
pub const LINE: usize = 51;

static SEVERITIES: [u8; 4] = *b"NTRX";

static LETTERS: [u8; 17] = *b"ABCDEFGHJKLMNPQRS";

// A code by its name, 0 where it has none. Codes are numbers here: a caller may hand over any.
fn name(names: &[u8], code: u8) -> u8
    ensures { result ≡ get_or names.now code 0 }
{
    names.get(usize::from(code)).copied().unwrap_or(0)
}

// Each asks for the room that it takes: the amounts differ, so that no type can say it.
fn push_number<I: Integer>(text: &mut Text<LINE>, n: I)
    requires { length (text_of text.old) + I.MAX_STR_LEN ≤ line_room }
    ensures bytes { text_of text.new ≡ text_of text.old ++ I.text n }
    ensures len { length (text_of text.new) ≤ length (text_of text.old) + I.MAX_STR_LEN }
{
    let mut digits = Buffer::new();
    text.extend(digits.format(n).as_bytes());
}

// What makes a line is compiled where the line is asked for (`inline(always)`): it is not copied on its way out.
// n, and "a W straight after n on a cut line".
#[tactic(auto, using(crate::proofs::Printing::texts))]
#[inline(always)]
fn push_size(text: &mut Text<LINE>, plan: SinglePlan)
    requires { length (text_of text.old) + 6 ≤ line_room }
    ensures bytes { text_of text.new ≡ text_of text.old ++ size_text (plan_paper plan) }
    ensures len { length (text_of text.new) ≤ length (text_of text.old) + 6 }
{
    push_number(text, plan.n);
    if plan.cut {
        text.extend(b"W");
    }
}

// The last fields of a line: severity after, score after.
#[tactic(auto, using(crate::proofs::Printing::texts))]
#[inline(always)]
fn push_after(text: &mut Text<LINE>, severity: u8, score: u8)
    requires { length (text_of text.old) + 6 ≤ line_room }
    ensures { text_of text.new ≡ text_of text.old ++ after_text severity score }
{
    text.extend(&[name(&SEVERITIES, severity), b' ']);
    push_number(text, score);
    text.extend(b"\n");
}

fn verdict(accepted: bool) -> &'static [u8]
    ensures { result.now ≡ cond accepted (ascii " accept ") (ascii " reject ") }
{
    if accepted { b" accept " } else { b" reject " }
}

// "no sev let n ac verdict next score"
pub fn header() -> Text<LINE>
    ensures { text_of result ≡ header }
{
    let mut text = Text::new();
    text.extend(b"no sev let n ac verdict next score\n");
    text
}

#[tactic(auto, using(crate::proofs::Printing::texts))]
#[inline(always)]
pub fn refused(line: u64, number: u8) -> Text<LINE>
    ensures { text_of result ≡ refused_line line number }
{
    let mut text = Text::new();
    push_number(&mut text, line);
    text.extend(b" refused ");
    push_number(&mut text, number);
    text.extend(b"\n");
    text
}

// "An accepted order prints its line number, "order", severity and score after."
#[tactic(auto, using(crate::proofs::Printing::texts))]
#[inline(always)]
pub fn order(line: u64, severity: u8, score: u8) -> Text<LINE>
    ensures { text_of result ≡ order_printed line severity score }
{
    let mut text = Text::new();
    push_number(&mut text, line);
    text.extend(b" order ");
    push_after(&mut text, severity, score);
    text
}

// "line, severity used (N, T, R), letter, size, Ac, verdict, severity after (N, T, R, or X stopped), score after"
#[inline(always)]
pub fn lot(
    line: u64,
    used: u8,
    plan: SinglePlan,
    accepted: bool,
    severity: u8,
    score: u8,
) -> Text<LINE>
    ensures { text_of result ≡ lot_printed line used (plan_paper plan) accepted severity score }
{
    let mut text = Text::new();
    push_number(&mut text, line);
    text.extend(&[
        b' ',
        name(&SEVERITIES, used),
        b' ',
        name(&LETTERS, plan.letter),
        b' ',
    ]);
    push_size(&mut text, plan);
    text.extend(b" ");
    push_number(&mut text, plan.ac);
    text.extend(verdict(accepted));
    push_after(&mut text, severity, score);
    text
}
