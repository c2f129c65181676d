// The lines below those of the actions: the log, the reading where there is a line for it, what is asked, the job, *more*.
ghost use Rattle.std.specs.Prelude.{List, ℕ, ◌+◌, ◌≤◌, length};
ghost use Rattle.meaning.specs.Limits.{log_limit};
ghost use Rattle.sheet_lines.specs.Forms.{now_form};
ghost use Rattle.sheet_lines.specs.Found.{Below};
ghost use Rattle.sheet_lines.specs.Ranged.{Ranged};
ghost use Rattle.sheet_lines.specs.Versions.{Usable};
ghost use Rattle.sheet.specs.Lines.{opened, from_log};
ghost use Rattle.sheet.specs.Sections.{LogFound, ReadIf};

use crate::{Parsed, steps};
use refusal::Refusal;
use rule::Kind;
use sheet_lines::{Cursor, Fault, Stretch, Version, line, rules};
use theory::Setting;

// Document 01: "one digit 0 to 6".
const MOST_MORE: u32 = 6;

// How a test inside a walk is read, where the version has a line for it; without it reading is still at the line above, and it means `step`.
fn read_now(sheet: &[u8], above: Cursor, version: Version) -> Result<Cursor, Fault>
    requires { Below sheet.now above }
    ensures { ReadIf version.reading now_form sheet.now above (λ c. c.number) result }
{
    if !version.reading {
        return Ok(Cursor { number: 0, ..above });
    }
    line::now_below(sheet, above)
}

// The lines from the log on, whose steps go to the front of the lent one, and that nothing follows the last.
pub(crate) fn read_rest(
    sheet: &[u8],
    above: Cursor,
    version: Version,
    setting: Setting,
    log: &mut [u8],
) -> Result<Parsed, Fault>
    requires { Below sheet.now above × Usable version × Ranged setting.counts × (log_limit ≤ length log.old) }
    ensures { (masks : List ℕ) → LogFound (from_log version (opened setting masks)) sheet.now (above.end + 1) (above.line + 1) masks log.old log.new result }
{
    let counts = setting.counts;
    let steps = steps::log_line(
        sheet,
        above.end + 1,
        above.line + 1,
        version,
        counts.actions,
        log,
    )?;
    let now = read_now(sheet, steps, version)?;
    let ask = rules::rule_below(sheet, now, b"ask=", Kind::Test, counts)?;
    let job = rules::rule_below(sheet, ask, b"run=", Kind::Job, counts)?;
    let more = line::number_below(sheet, job, b"more=", line::DIGIT_WIDTH, 0, MOST_MORE)?;
    if more.end + 1 < sheet.len() {
        return Err(Fault {
            refusal: Refusal::BadLine,
            line: more.line + 1,
        });
    }
    Ok(Parsed {
        setting: Setting {
            reading: now.number as usize,
            ..setting
        },
        steps: steps.number as usize,
        ask: Stretch {
            start: ask.start,
            end: ask.end,
        },
        run: Stretch {
            start: job.start,
            end: job.end,
        },
        more: more.number as usize,
    })
}
