// The two lines that are rules: what is asked, and the job that is carried out.
ghost use Rattle.rule.specs.Outcome.{kind_of};
ghost use Rattle.spelling.specs.Scan.{stretch};
ghost use Rattle.sheet_lines.specs.Forms.{rule_form};
ghost use Rattle.sheet_lines.specs.Found.{Below, Unnumbered, ReadBelow};
ghost use Rattle.sheet_lines.specs.Ranged.{Ranged};

use crate::{Cursor, Fault, line};
use rule::Kind;
use theory::Counts;

// The line below another, which is a rule of this kind.
pub fn rule_below(
    sheet: &[u8],
    above: Cursor,
    key: &[u8],
    kind: Kind,
    counts: Counts,
) -> Result<Cursor, Fault>
    requires { Below sheet.now above × Ranged counts }
    ensures { ReadBelow (rule_form key.now (kind_of kind) counts) sheet.now above (λ c. stretch sheet.now c.start c.end) result × Unnumbered result }
{
    let c = line::line_at(sheet, above.end + 1, above.line + 1, key)?;
    // A match and no `map_err`: of that one's closure the proof is told nothing plain.
    match rule::check_rule(&sheet[c.start..c.end], kind, counts) {
        Err(refusal) => Err(Fault {
            refusal,
            line: c.line,
        }),
        Ok(()) => Ok(c),
    }
}
