// The two calls that have a kind as a number: they ask which kind it is and hand on, and know no rule.
ghost use Rattle.std.specs.Prelude.{length};
ghost use Rattle.meaning.specs.Refusal.{Refused, no_count};
ghost use Rattle.refusal.specs.Number.{number_of};
ghost use Rattle.refusal.specs.Given.{number_given, value_given};
ghost use Rattle.rule_calls.specs.Kinds.{no_kind_rows, KindAnswered};
ghost use Rattle.rule_calls.specs.Exported.{RestExported, NormalExported};

use refusal::Refusal;
use rule::Kind;
use theory::Counts;
use theory::faults::bad_counts;

// The refusal where the number is no kind.
fn no_kind(counts: Counts) -> Refusal
    ensures { Refused (no_kind_rows counts) (number_of result) }
{
    if bad_counts(counts) {
        return Refusal::BadNumber;
    }
    Refusal::BadRule
}

// The kind that has this number: C gives a number where the library has a `Kind`.
fn kind_numbered(number: u8, counts: Counts) -> Result<Kind, Refusal>
    ensures { KindAnswered number counts result }
{
    match Kind::try_from(number) {
        Ok(kind) => Ok(kind),
        Err(_) => Err(no_kind(counts)),
    }
}

// Where the rest of the text begins, behind the rule that opens it.
pub(crate) fn rest(text: &[u8], kind: u8, counts: Counts) -> Result<usize, Refusal>
    ensures { RestExported kind text.now counts (number_given result) (value_given (length text.now) result) }
{
    let kind = kind_numbered(kind, counts)?;
    match rule::read_rule(text, kind, counts) {
        Ok(left) => Ok(text.len() - left.len()),
        Err(none) => Err(none.why),
    }
}

// The normal form, at the front of the output.
pub(crate) fn normal(
    text: &[u8],
    kind: u8,
    counts: Counts,
    out: &mut [u8],
) -> Result<usize, Refusal>
    ensures { NormalExported kind text.now counts out.old (number_given result) (value_given no_count result) out.new }
{
    let kind = kind_numbered(kind, counts)?;
    normal::normal(text, kind, counts, out)
}
