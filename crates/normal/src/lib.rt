#![tactic(auto)]
// The rewriter to converse normal form: `-` is pushed inward until none is left. Knows the rule's text and lent output; no theory and no log.
ghost use Rattle.rule.specs.Outcome.{kind_of};
ghost use Rattle.meaning.specs.Refusal.{no_count};
ghost use Rattle.refusal.specs.Given.{number_given, value_given};
ghost use Rattle.normal.specs.Answer.{NormalAnswered};
ghost use Rattle.normal.specs.Whole.{ShortRule, SpelledWhole, RuleWritten, WrittenOut};

mod write; // write.rt: bytes to the lent output
mod rewrite; // rewrite.rt: the rewriter of walks and tests

use grammar::ends::{ENDS_ROOM, fill_ends};
use refusal::Refusal;
use rewrite::Rewriter;
use rule::{Kind, check_rule};
use theory::Counts;

// The rule that the text spells, from the front of the output; how many bytes it has. The rewriter's two functions take different arguments, so a match picks them.
fn write_rule(rewriter: &Rewriter, kind: Kind, out: &mut [u8]) -> usize
    requires { SpelledWhole (kind_of kind) rewriter.now.text.now rewriter.now.ends.now }
    ensures { RuleWritten (kind_of kind) rewriter.now.text.now out.old result out.new }
{
    match kind {
        Kind::Test => rewriter.test(0, out, 0),
        Kind::Walk | Kind::Job => rewriter.walk(0, false, out, 0),
    }
}

// Counts first, on no output at all, so that nothing is written where the output is too short.
fn write_out(text: &[u8], kind: Kind, out: &mut [u8]) -> Result<usize, Refusal>
    requires { ShortRule (kind_of kind) text.now }
    ensures { WrittenOut (kind_of kind) text.now out.old result out.new }
{
    let mut ends = [0u8; ENDS_ROOM];
    fill_ends(text, &mut ends);
    let rewriter = Rewriter { text, ends: &ends };
    let count = write_rule(&rewriter, kind, &mut out[..0]);
    if out.len() < count {
        return Err(Refusal::ShortOutput);
    }
    write_rule(&rewriter, kind, out);
    Ok(count)
}

// The normal form of the rule that the text spells, from the front of the output, and how many bytes it has; the rest of the output keeps its bytes.
pub fn normal(text: &[u8], kind: Kind, counts: Counts, out: &mut [u8]) -> Result<usize, Refusal>
    ensures { NormalAnswered (kind_of kind) text.now counts out.old (number_given result) (value_given no_count result) out.new }
{
    check_rule(text, kind, counts)?;
    write_out(text, kind, out)
}
