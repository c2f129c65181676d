// The log line: two digits an action, which go into the lent log.
ghost use Rattle.std.specs.Prelude.{◌≤◌, length, take};
ghost use Rattle.meaning.specs.Limits.{action_limit, log_limit};
ghost use Rattle.spelling.specs.Scan.{stretch};
ghost use Rattle.sheet_lines.specs.Versions.{Usable};
ghost use Rattle.sheet_lines.specs.Forms.{log_form};
ghost use Rattle.sheet_lines.specs.Found.{LineRead};
ghost use Rattle.sheet.specs.Log.{StepsRead, LogKept};

use refusal::Refusal;
use sheet_lines::{Cursor, Fault, Version, line};
use spelling::scan;
use theory::faults;

// "two digits an action"
const STEP_WIDTH: usize = 2;

// Reads the steps of a stretch into the log: how many they are, if they are written as they should be and not too many.
fn read_steps(sheet: &[u8], start: usize, end: usize, limit: usize, log: &mut [u8]) -> Option<usize>
    requires { (start ≤ end) × (end ≤ length sheet.now) × (limit ≤ length log.old) }
    ensures { StepsRead limit (stretch sheet.now start end) log.old log.new result }
{
    let size = end - start;
    let count = size / STEP_WIDTH;
    if STEP_WIDTH * count != size {
        return None;
    }
    if limit < count {
        return None;
    }
    for i in 0..count {
        let step = scan::two_digits(sheet, start + STEP_WIDTH * i)?;
        log[i] = step as u8;
    }
    Some(count)
}

// The log line, whose steps go to the front of the log. Its number is how many they are.
pub(crate) fn log_line(
    sheet: &[u8],
    at: usize,
    line: usize,
    version: Version,
    actions: usize,
    log: &mut [u8],
) -> Result<Cursor, Fault>
    requires { (at ≤ length sheet.now) × Usable version × (actions ≤ action_limit) × (log_limit ≤ length log.old) }
    ensures { LineRead (log_form version actions) sheet.now at line (λ c. take c.number log.new) result × LogKept version.log log.old log.new result }
{
    let bad = Fault {
        refusal: Refusal::BadLog,
        line,
    };
    let c = line::line_at(sheet, at, line, b"log=")?;
    let count = read_steps(sheet, c.start, c.end, version.log, log).ok_or(bad)?;
    if faults::bad_log(actions, &log[..count]) {
        return Err(bad);
    }
    Ok(Cursor {
        number: count as u32,
        ..c
    })
}
