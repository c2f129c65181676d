#![tactic(auto)]
// The exported functions for a whole sheet: thin over a proved call each, they promise what that call promises. A slice is a pointer and a length in C.
ghost use Rattle.answer.specs.Written.{AnswerWritten};
ghost use Rattle.sheet_calls.specs.Exported.{SheetExported};

use answer::ANSWER_ROOM;
use sheet::{LOG_ROOM, MASKS_ROOM};

// How many numbers a sheet is told in: its line where it is refused, fluents, actions, domain, start, the log's steps, the reading, where ask and run begin and end, more.
pub const SHEET_NUMBERS: usize = 12;

// Reads a sheet: what it says, in the lent tables and numbers, which a refusal leaves as they were, but for the line.
#[unsafe(no_mangle)]
pub extern "C" fn wyh_read_sheet(
    sheet: &[u8],
    masks: &mut [u32; MASKS_ROOM],
    log: &mut [u8; LOG_ROOM],
    numbers: &mut [usize; SHEET_NUMBERS],
) -> u8
    ensures { SheetExported sheet.now masks.old log.old result numbers.new masks.new log.new }
{
    match sheet::read_sheet(sheet, masks, log) {
        Err(f) => {
            *numbers = [f.line, 0, 0, 0, 0, 0, 0, 0, 0, 0, 0, 0];
            u8::from(f.refusal)
        }
        Ok(p) => {
            let counts = p.setting.counts;
            *numbers = [
                0,
                counts.fluents,
                counts.actions,
                counts.domain,
                p.setting.start as usize,
                p.steps,
                p.setting.reading,
                p.ask.start,
                p.ask.end,
                p.run.start,
                p.run.end,
                p.more,
            ];
            0
        }
    }
}

// What the program jobsheet prints for a sheet, at the front of the output.
#[unsafe(no_mangle)]
pub extern "C" fn wyh_answer(sheet: &[u8], out: &mut [u8; ANSWER_ROOM]) -> usize
    ensures { AnswerWritten sheet.now out.old out.new result }
{
    answer::answer(sheet, out)
}
