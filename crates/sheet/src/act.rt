// The lines of the actions: each has the version's masks in hex, which go into the mask table.
ghost use Rattle.std.specs.Prelude.{◌+◌, ◌*◌, ◌≤◌, length};
ghost use Rattle.meaning.specs.Limits.{fluent_limit};
ghost use Rattle.meaning.specs.Theory.{stride};
ghost use Rattle.spelling.specs.Numeral.{word_width};
ghost use Rattle.spelling.specs.Scan.{stretch};
ghost use Rattle.sheet_lines.specs.Masks.{mask_pitch};
ghost use Rattle.sheet_lines.specs.Versions.{Usable};
ghost use Rattle.sheet.specs.Acts.{MaskFound, OnlyRow, MasksRead, row_at};
ghost use Rattle.sheet_lines.specs.Forms.{act_form};
ghost use Rattle.sheet_lines.specs.Found.{LineRead};
ghost use Rattle.sheet.specs.Sections.{ActsAsked, ActsFound, TableFound};

use crate::Head;
use refusal::Refusal;
use sheet_lines::{Cursor, Fault, Version, line, versions};
use spelling::{WORD_WIDTH, scan};
use theory::faults;
use theory::rows::PLAIN_STRIDE;

// From one mask of a line to the next: its digits and a comma.
const MASK_PITCH: usize = WORD_WIDTH + 1;

// Mask j of those that start at this place, if a comma parts it from the one before it.
fn mask_at(sheet: &[u8], start: usize, j: usize) -> Option<u32>
    requires { start + mask_pitch * j + word_width ≤ length sheet.now }
    ensures { MaskFound sheet.now start j result }
{
    let at = start + MASK_PITCH * j;
    if 0 < j && sheet[at - 1] != b',' {
        return None;
    }
    scan::number_at(sheet, at, WORD_WIDTH, 16)
}

// Reads so many masks of a stretch into the table from this row on: whether they are written as they should be. It has the whole table and a row in it, since it promises that all else of the
// table stays.
fn read_masks(
    sheet: &[u8],
    start: usize,
    end: usize,
    count: usize,
    masks: &mut [u32],
    row: usize,
) -> bool
    requires { (start ≤ end) × (end ≤ length sheet.now) × (1 ≤ count) × (count ≤ stride) × (row + count ≤ length masks.old) }
    ensures { OnlyRow row count masks.old masks.new × MasksRead (stretch sheet.now start end) masks.new row count result }
{
    if end - start != MASK_PITCH * count - 1 {
        return false;
    }
    for j in 0..count {
        match mask_at(sheet, start, j) {
            None => return false,
            Some(mask) => masks[row + j] = mask,
        }
    }
    true
}

// The line of an action, whose masks go into the table from this row on.
fn act_line(
    sheet: &[u8],
    at: usize,
    line: usize,
    version: Version,
    fluents: usize,
    masks: &mut [u32],
    row: usize,
) -> Result<Cursor, Fault>
    requires { (at ≤ length sheet.now) × Usable version × (fluents ≤ fluent_limit) × (row + version.masks ≤ length masks.old) }
    ensures { OnlyRow row version.masks masks.old masks.new × LineRead (act_form version fluents) sheet.now at line (λ c. row_at masks.new row version.masks) result }
{
    let count = version.masks;
    let c = line::line_at(sheet, at, line, b"act=")?;
    if !read_masks(sheet, c.start, c.end, count, masks, row) {
        return Err(Fault {
            refusal: Refusal::BadNumber,
            line,
        });
    }
    if faults::bad_masks(fluents, 0, &masks[row..row + count]) {
        return Err(Fault {
            refusal: Refusal::LacksFluent,
            line,
        });
    }
    Ok(c)
}

// The lines of the actions below the head; their masks go to the front of the table, one line's behind the other's.
fn read_acts(sheet: &[u8], head: Head, masks: &mut [u32]) -> Result<Cursor, Fault>
    requires { ActsAsked sheet.now head masks.old }
    ensures { ActsFound sheet.now head masks.old masks.new result }
{
    let mut last = head.last;
    for a in 0..head.setting.counts.actions {
        last = act_line(
            sheet,
            last.end + 1,
            last.line + 1,
            head.version,
            head.setting.counts.fluents,
            masks,
            head.version.masks * a,
        )?;
    }
    Ok(last)
}

// The lines of the actions below the head, and the table of what they say.
pub(crate) fn read_table(sheet: &[u8], head: Head, masks: &mut [u32]) -> Result<Cursor, Fault>
    requires { ActsAsked sheet.now head masks.old }
    ensures { TableFound sheet.now head masks.old masks.new result }
{
    let last = read_acts(sheet, head, masks)?;
    if head.version.masks == PLAIN_STRIDE {
        versions::widen(head.setting.counts.actions, masks);
    }
    Ok(last)
}
