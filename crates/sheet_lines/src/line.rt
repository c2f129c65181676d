// One line of a sheet: its key and its LF, and the lines that say a number or a reading.
ghost use Rattle.std.specs.Prelude.{◌≤◌, ◌<◌, ◌^◌, length};
ghost use Rattle.meaning.specs.Limits.{fluent_limit};
ghost use Rattle.sheet_lines.specs.Forms.{number_form, now_form, start_form};
ghost use Rattle.sheet_lines.specs.Found.{Below, LineFound, Unnumbered, LineRead, ReadBelow};

use crate::{Cursor, Fault};
use refusal::Refusal;
use spelling::{WORD_WIDTH, scan};
use theory::faults;

// The version and *more* have one digit, a count and the domain have two.
pub const DIGIT_WIDTH: usize = 1;

pub const COUNT_WIDTH: usize = 2;

// The line with this key at this place, whatever its value is.
pub fn line_at(sheet: &[u8], at: usize, line: usize, key: &[u8]) -> Result<Cursor, Fault>
    requires { at ≤ length sheet.now }
    ensures { LineFound key.now sheet.now at line result × Unnumbered result }
{
    if scan::opens_with(sheet, at, key) {
        let start = at + key.len();
        let end = scan::find_lf(sheet, start);
        if end < sheet.len() {
            return Ok(Cursor {
                line,
                start,
                end,
                number: 0,
            });
        }
    }
    Err(Fault {
        refusal: Refusal::BadLine,
        line,
    })
}

// A line that says a number of so many decimal digits in a range: the version, a count, the domain, *more*.
pub fn number_line(
    sheet: &[u8],
    at: usize,
    line: usize,
    key: &[u8],
    width: usize,
    low: u32,
    high: u32,
) -> Result<Cursor, Fault>
    requires { (at ≤ length sheet.now) × (high < 10 ^ width) × (10 ^ width ≤ 2 ^ 32) }
    ensures { LineRead (number_form key.now width low high) sheet.now at line (λ c. c.number) result }
{
    let c = line_at(sheet, at, line, key)?;
    match scan::number_in(sheet, c.start, c.end, width, 10) {
        Some(number) if (low..=high).contains(&number) => Ok(Cursor { number, ..c }),
        _ => Err(Fault {
            refusal: Refusal::BadNumber,
            line,
        }),
    }
}

// The same of the line below another.
pub fn number_below(
    sheet: &[u8],
    above: Cursor,
    key: &[u8],
    width: usize,
    low: u32,
    high: u32,
) -> Result<Cursor, Fault>
    requires { Below sheet.now above × (high < 10 ^ width) × (10 ^ width ≤ 2 ^ 32) }
    ensures { ReadBelow (number_form key.now width low high) sheet.now above (λ c. c.number) result }
{
    number_line(sheet, above.end + 1, above.line + 1, key, width, low, high)
}

// How a test inside a walk is read, in the line below another: number 0 for `step`, 1 for `end`.
pub fn now_below(sheet: &[u8], above: Cursor) -> Result<Cursor, Fault>
    requires { Below sheet.now above }
    ensures { ReadBelow now_form sheet.now above (λ c. c.number) result }
{
    let c = line_at(sheet, above.end + 1, above.line + 1, b"now=")?;
    let word = &sheet[c.start..c.end];
    if word == b"step".as_slice() {
        Ok(Cursor { number: 0, ..c })
    } else if word == b"end".as_slice() {
        Ok(Cursor { number: 1, ..c })
    } else {
        Err(Fault {
            refusal: Refusal::BadNumber,
            line: c.line,
        })
    }
}

// The start state.
pub fn start_line(sheet: &[u8], at: usize, line: usize, fluents: usize) -> Result<Cursor, Fault>
    requires { (at ≤ length sheet.now) × (fluents ≤ fluent_limit) }
    ensures { LineRead (start_form fluents) sheet.now at line (λ c. c.number) result }
{
    let bad = Fault {
        refusal: Refusal::BadNumber,
        line,
    };
    let c = line_at(sheet, at, line, b"start=")?;
    let number = scan::number_in(sheet, c.start, c.end, WORD_WIDTH, 16).ok_or(bad)?;
    if faults::names_lacking(fluents, number) {
        return Err(Fault {
            refusal: Refusal::LacksFluent,
            line,
        });
    }
    Ok(Cursor { number, ..c })
}
