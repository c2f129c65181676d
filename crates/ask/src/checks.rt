// Which refusal a question is given: theory and log, then the rule, then the two times.
ghost use Rattle.std.specs.Prelude.{[], ◌∷◌};
ghost use Rattle.meaning.specs.Refusal.{◌when◌, BadTimes};
ghost use Rattle.theory.specs.Subject.{subject};
ghost use Rattle.theory.specs.Check.{Settled};
ghost use Rattle.rule.specs.Outcome.{kind_of};
ghost use Rattle.ask.specs.Rows.{ask_rows};

use refusal::Refusal;
use rule::{Kind, check_rule};
use theory::Asked;
use theory::faults::check_world;

// Then is after now, or now past the log: for whoever has other checks before it and behind it.
pub fn check_times(log: &[u8], then: usize, now: usize) -> Result<(), Refusal>
    ensures { Settled ((10 when BadTimes then now log.now) ∷ []) result }
{
    if now < then || log.len() < now {
        return Err(Refusal::BadPosition);
    }
    Ok(())
}

pub(crate) fn check(
    asked: Asked,
    rule: &[u8],
    kind: Kind,
    then: usize,
    now: usize,
) -> Result<(), Refusal>
    ensures { Settled (ask_rows (kind_of kind) (subject asked.entry) rule.now then now) result }
{
    check_world(asked)?;
    check_rule(rule, kind, asked.setting.counts)?;
    check_times(asked.log, then, now)
}
