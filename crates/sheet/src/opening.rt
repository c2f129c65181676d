// The lines down to the start state: the version, the two counts, the domain where there is a line for it, the start.
ghost use Rattle.sheet_lines.specs.Forms.{domain_form};
ghost use Rattle.sheet_lines.specs.Found.{Below};
ghost use Rattle.sheet.specs.Lines.{lines_of_sheet};
ghost use Rattle.sheet.specs.Sections.{HeadFound, ReadIf};

use crate::Head;
use sheet_lines::{Cursor, Fault, Version, line, versions};
use theory::{ACTION_LIMIT, Counts, DOMAIN_LIMIT, FLUENT_LIMIT, Setting};

// The newest version that there is.
const NEWEST: u32 = 4;

const MOST_FLUENTS: u32 = FLUENT_LIMIT as u32;

const MOST_ACTIONS: u32 = ACTION_LIMIT as u32;

const MOST_VALUES: u32 = DOMAIN_LIMIT as u32;

// The lines from the version down to the start state.
pub(crate) fn read_head(sheet: &[u8]) -> Result<Head, Fault>
    ensures { HeadFound lines_of_sheet sheet.now 0 1 result }
{
    let first = line::number_line(sheet, 0, 1, b"sheet=", line::DIGIT_WIDTH, 1, NEWEST)?;
    let version = versions::version_of(first.number);
    let fluents = line::number_below(
        sheet,
        first,
        b"fluents=",
        line::COUNT_WIDTH,
        0,
        MOST_FLUENTS,
    )?;
    let actions = line::number_below(
        sheet,
        fluents,
        b"actions=",
        line::COUNT_WIDTH,
        1,
        MOST_ACTIONS,
    )?;
    let domain = read_domain(sheet, actions, version)?;
    let counts = Counts {
        fluents: fluents.number as usize,
        actions: actions.number as usize,
        domain: domain.number as usize,
    };
    let last = line::start_line(sheet, domain.end + 1, domain.line + 1, counts.fluents)?;
    Ok(Head {
        version,
        setting: Setting {
            counts,
            start: last.number,
            reading: 0,
        },
        last,
    })
}

// How many values a variable has, where the version has a line for it; without it reading is still at the line above, and there are none.
fn read_domain(sheet: &[u8], above: Cursor, version: Version) -> Result<Cursor, Fault>
    requires { Below sheet.now above }
    ensures { ReadIf version.valued domain_form sheet.now above (λ c. c.number) result }
{
    if !version.valued {
        return Ok(Cursor { number: 0, ..above });
    }
    line::number_below(sheet, above, b"domain=", line::COUNT_WIDTH, 1, MOST_VALUES)
}
