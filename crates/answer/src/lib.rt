#![tactic(auto)]
// One sheet's outcome as a value, and its text in lent output: what is printed is settled here, up to the write itself.
ghost use Rattle.std.specs.Prelude.{◌≤◌, length};
ghost use Rattle.spelling.specs.Wrote.{Wrote};
ghost use Rattle.answer.specs.Outcome.{Decided, told_of};
ghost use Rattle.answer.specs.Text.{text_of};
ghost use Rattle.answer.specs.Written.{AnswerWritten};
ghost use Rattle.answer.specs.Respond.{Printable};

mod lines; // lines.rt: the lines that are printed
mod respond; // respond.rt: the answer to an accepted sheet

use finish::MORE_LIMIT;
use respond::respond;
use sheet::{LOG_ROOM, MASKS_ROOM, read_sheet};
use sheet_lines::{Fault, part};
use theory::{Asked, STRIDE};

// Every answer fits in so many bytes.
pub const ANSWER_ROOM: usize = 64;

// What an accepted sheet is told: the verdict, the last state, and the first finishing sequence, if there is one.
#[derive(Clone, Copy)]
pub struct Answered {
    pub yes: bool,
    pub state: u32,
    pub finish: Option<Ending>,
}

// A finishing sequence: so many steps, at the front of fixed room. Every other place of it is 0.
#[derive(Clone, Copy)]
pub struct Ending {
    pub steps: [u8; MORE_LIMIT],
    pub count: usize,
}

// The outcome of a sheet: the first faulty line, or the answers to what it asks.
pub fn decide(sheet: &[u8]) -> Result<Answered, Fault>
    ensures { Decided sheet.now result }
{
    let mut masks = [0u32; MASKS_ROOM];
    let mut log = [0u8; LOG_ROOM];
    let p = read_sheet(sheet, &mut masks, &mut log)?;
    let table = STRIDE * p.setting.counts.actions;
    let asked = Asked {
        setting: p.setting,
        masks: &masks[..table],
        log: &log[..p.steps],
    };
    let test = part(sheet, p.ask);
    let job = part(sheet, p.run);
    Ok(respond(asked, test, job, p.more))
}

// The text of an outcome, from the front of the output.
fn write(outcome: Result<Answered, Fault>, out: &mut [u8]) -> usize
    requires { Printable outcome × (47 ≤ length out.old) }
    ensures { Wrote out.old 0 (text_of (told_of outcome)) out.new result }
{
    match outcome {
        Ok(a) => lines::answered(out, a),
        Err(f) => lines::refusal(out, u32::from(u8::from(f.refusal)), f.line as u32),
    }
}

// The answer to a sheet, from the front of the output, the rest of which keeps its content; how many bytes it has.
pub fn answer(sheet: &[u8], out: &mut [u8; ANSWER_ROOM]) -> usize
    ensures { AnswerWritten sheet.now out.old out.new result }
{
    let o = decide(sheet);
    write(o, out)
}
