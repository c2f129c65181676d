#![tactic(auto)]
// The lines of a sheet, one at a time: what the line at a place says, or why it is refused, and the versions that say which lines there are. Knows no order of lines.
ghost use Rattle.std.specs.Prelude.{min, length};
ghost use Rattle.rule.specs.Outcome.{PartAt};
ghost use Rattle.spelling.specs.Scan.{stretch};

pub mod line; // line.rt: a line with its key, and the lines that say a number
pub mod rules; // rules.rt: the lines that are rules
pub mod versions; // versions.rt: the versions of the sheet, and the table of an older one

use refusal::Refusal;

// A version of the sheet: whether a line says how many values a variable has, how many masks an action's line has, how many steps its log may have, and whether a line
// says how a test inside a walk is read.
#[derive(Clone, Copy)]
pub struct Version {
    pub valued: bool,
    pub masks: usize,
    pub log: usize,
    pub reading: bool,
}

// A refused line: why, and its number from 1.
#[derive(Clone, Copy)]
pub struct Fault {
    pub refusal: Refusal,
    pub line: usize,
}

// An accepted line: its number from 1, the place where its value starts, the place of its LF, and the number that it says, 0 where it says none (no Option: who reads the number has
// asked for a line that says one).
#[derive(Clone, Copy)]
pub struct Cursor {
    pub line: usize,
    pub start: usize,
    pub end: usize,
    pub number: u32,
}

// A stretch of the sheet: from this place up to that one.
#[derive(Clone, Copy)]
pub struct Stretch {
    pub start: usize,
    pub end: usize,
}

// The stretch of the sheet, as a part of the same sheet: so much of it as there is.
pub fn part(sheet: &[u8], s: Stretch) -> &[u8]
    ensures { PartAt sheet.entry (min s.start (length sheet.now)) (stretch sheet.now s.start s.end) result }
{
    let start = s.start.min(sheet.len());
    let end = s.end.min(sheet.len());
    if end < start {
        return &sheet[start..start];
    }
    &sheet[start..end]
}
