// The lines that are printed, each ended by one LF. Knows no sheet.
ghost use Rattle.std.specs.Prelude.{◌≡◌, ◌+◌, ◌≤◌, ◌<◌, length, IfSome};
ghost use Rattle.spelling.specs.Numeral.{hex8};
ghost use Rattle.answer.specs.Outcome.{Ended, ending_of};
ghost use Rattle.answer.specs.Text.{line, yes_no, finish_text, answer_text, refusal_text};
ghost use Rattle.spelling.specs.Wrote.{Wrote};

use crate::{Answered, Ending};
use spelling::put;

fn yes_or_no(yes: bool) -> &'static [u8]
    ensures { result.now ≡ yes_no yes }
{
    if yes { b"yes" } else { b"no" }
}

// The verdict.
pub(crate) fn verdict(out: &mut [u8], to: usize, yes: bool) -> usize
    requires { to + 12 ≤ length out.old }
    ensures { Wrote out.old to (line "verdict=" (yes_no yes)) out.new result }
{
    let value = put::text(out, to, b"verdict=");
    let end = put::text(out, value, yes_or_no(yes));
    put::text(out, end, b"\n")
}

// The last state.
pub(crate) fn state(out: &mut [u8], to: usize, word: u32) -> usize
    requires { to + 15 ≤ length out.old }
    ensures { Wrote out.old to (line "state=" (hex8 word)) out.new result }
{
    let value = put::text(out, to, b"state=");
    let end = put::number(out, value, word, 8, 16);
    put::text(out, end, b"\n")
}

// A sequence as two digits an action, or that there is none.
fn sequence(out: &mut [u8], to: usize, ending: Option<Ending>) -> usize
    requires { IfSome ending Ended × (to + 12 ≤ length out.old) }
    ensures { Wrote out.old to (finish_text (ending_of ending)) out.new result }
{
    match ending {
        Some(e) => put::actions(out, to, &e.steps[..e.count]),
        None => put::text(out, to, b"none"),
    }
}

// The sequence that finishes the job, or that none does.
pub(crate) fn finish(out: &mut [u8], to: usize, ending: Option<Ending>) -> usize
    requires { IfSome ending Ended × (to + 20 ≤ length out.old) }
    ensures { Wrote out.old to (line "finish=" (finish_text (ending_of ending))) out.new result }
{
    let value = put::text(out, to, b"finish=");
    let end = sequence(out, value, ending);
    put::text(out, end, b"\n")
}

// A refusal with its place.
pub(crate) fn refusal(out: &mut [u8], number: u32, place: u32) -> usize
    requires { (number < 1000) × (place < 1000) × (21 ≤ length out.old) }
    ensures { Wrote out.old 0 (refusal_text number place) out.new result }
{
    let value = put::text(out, 0, b"refused=");
    let comma = put::decimal(out, value, number);
    let second = put::text(out, comma, b",line=");
    let end = put::decimal(out, second, place);
    put::text(out, end, b"\n")
}

// The answer to an accepted sheet.
pub(crate) fn answered(out: &mut [u8], a: Answered) -> usize
    requires { IfSome a.finish Ended × (47 ≤ length out.old) }
    ensures { Wrote out.old 0 (answer_text a.yes a.state (ending_of a.finish)) out.new result }
{
    let second = verdict(out, 0, a.yes);
    let third = state(out, second, a.state);
    finish(out, third, a.finish)
}
