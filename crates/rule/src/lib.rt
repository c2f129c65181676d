#![tactic(auto)]
// Reads a rule: whether it fits, and where it ends. Knows the text alone; what a rule means is another crate's.
ghost use Rattle.std.specs.Prelude.{true};
ghost use Rattle.theory.specs.Check.{Settled};
ghost use Rattle.rule.specs.Kinds.{KindNumbered};
ghost use Rattle.rule.specs.Outcome.{kind_of, rule_rows, number_read, part_read, ReadAnswered};

mod answer; // answer.rt: the facts of a rule
mod reader; // reader.rt: a walk's reader and a test's
mod judge; // judge.rt: which refusal a rule is given

use refusal::Refusal;
use theory::Counts;

// "A rule is used as a *test*, as a *walk* (questions only) or as a *job* (a walk to be carried out)."
#[derive(Clone, Copy, Debug, PartialEq, Eq)]
pub enum Kind {
    Test,
    Walk,
    Job,
}

// A number that is no kind's.
#[derive(Clone, Copy, Debug, PartialEq, Eq)]
pub struct NoKind(pub u8);

// A kind as a number: 0 a test, 1 a walk, 2 a job.
impl TryFrom<u8> for Kind {
    type Error = NoKind;

    ghost try_from_gives = { KindNumbered };

    fn try_from(number: u8) -> Result<Self, NoKind> {
        match number {
            0 => Ok(Kind::Test),
            1 => Ok(Kind::Walk),
            2 => Ok(Kind::Job),
            _ => Err(NoKind(number)),
        }
    }
}

// Why no rule was read, and the empty part that is handed back all the same.
#[derive(Clone, Copy)]
pub struct NoRule<'a> {
    pub why: Refusal,
    pub rest: &'a [u8],
}

// Whether the text is exactly one rule of this kind that the theory knows.
pub fn check_rule(text: &[u8], kind: Kind, counts: Counts) -> Result<(), Refusal>
    ensures { Settled (rule_rows true (kind_of kind) text.now counts) result }
{
    judge::survey(text, kind, counts, true)?;
    Ok(())
}

// Reads one rule and hands back the unread rest, a part of the same text.
pub fn read_rule<'a>(text: &'a [u8], kind: Kind, counts: Counts) -> Result<&'a [u8], NoRule<'a>>
    ensures { ReadAnswered (kind_of kind) text.entry counts (number_read result) (part_read result) }
{
    match judge::survey(text, kind, counts, false) {
        Err(why) => {
            let rest = judge::nothing(text);
            Err(NoRule { why, rest })
        }
        Ok(facts) => Ok(judge::unread(text, facts)),
    }
}
