#![tactic(auto)]
// Reads a job sheet: finds its first faulty line, or what the sheet says.
ghost use Rattle.sheet.specs.Answer.{SheetAnswered};
ghost use Rattle.sheet.specs.Sections.{LinesFound};

mod act; // act.rt: the lines of the actions
mod closing; // closing.rt: the lines below those of the actions
mod opening; // opening.rt: the lines down to the start state
mod steps; // steps.rt: the log line

use positions::PositionSet;
use refusal::Refusal;
use sheet_lines::{Cursor, Fault, Stretch, Version};
use theory::{ACTION_LIMIT, STRIDE, Setting};

// What the lines down to the start state say, with the cursor of the last of them.
#[derive(Clone, Copy)]
struct Head {
    pub version: Version,
    pub setting: Setting,
    pub last: Cursor,
}

// What an accepted sheet says, but for the masks and the steps of the log, which go to lent memory: how many steps there are, and where the rules stand.
#[derive(Clone, Copy)]
pub struct Parsed {
    pub setting: Setting,
    pub steps: usize,
    pub ask: Stretch,
    pub run: Stretch,
    pub more: usize,
}

// Document 02: the longest sheet of any version.
pub const SHEET_LIMIT: usize = 6738;

// Room for the masks of as many actions as there may be, and for the steps of the longest log.
pub const MASKS_ROOM: usize = STRIDE * ACTION_LIMIT;

pub const LOG_ROOM: usize = PositionSet::PLACES;

// The lines from the top: the first faulty one, or what they say.
fn read_lines(
    sheet: &[u8],
    masks: &mut [u32; MASKS_ROOM],
    log: &mut [u8; LOG_ROOM],
) -> Result<Parsed, Fault>
    ensures { LinesFound sheet.now masks.old log.old result masks.new log.new }
{
    let head = opening::read_head(sheet)?;
    let last = act::read_table(sheet, head, masks)?;
    closing::read_rest(sheet, last, head.version, head.setting, log)
}

// Reads a sheet: the first faulty line with its refusal, or what the sheet says. Its masks and its log go to the front of the lent tables, which a
// refusal leaves as they were.
pub fn read_sheet(
    sheet: &[u8],
    masks: &mut [u32; MASKS_ROOM],
    log: &mut [u8; LOG_ROOM],
) -> Result<Parsed, Fault>
    ensures { SheetAnswered sheet.now masks.old log.old result masks.new log.new }
{
    if SHEET_LIMIT < sheet.len() {
        return Err(Fault {
            refusal: Refusal::SheetTooLong,
            line: 0,
        });
    }
    let mut table = *masks;
    let mut steps = *log;
    let parsed = read_lines(sheet, &mut table, &mut steps)?;
    *masks = table;
    *log = steps;
    Ok(parsed)
}
