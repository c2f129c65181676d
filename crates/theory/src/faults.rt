// Refusals 3, 4 and 5, as every call about a world gives them: counts and table, masks, log. Each fault is one test; the checks put them in the order of
// the list.
ghost use Rattle.std.specs.Prelude.{◌≡◌, ◌↔◌, true, ◌<◌, length};
ghost use Rattle.meaning.specs.Limits.{log_limit};
ghost use Rattle.meaning.specs.Refusal.{NamesLacking, BadMasks, BadLog};
ghost use Rattle.theory.specs.Subject.{subject};
ghost use Rattle.theory.specs.Rows.{CountsOut, theory_rows, world_rows};
ghost use Rattle.theory.specs.Check.{Settled};
ghost use Rattle.theory.specs.Union.{Union};

use crate::{
    ACTION_LIMIT, Asked, Counts, DOMAIN_LIMIT, FLUENT_LIMIT, READING_LIMIT, STRIDE, Setting,
};
use positions::PositionSet;
use refusal::Refusal;

// A count is out of its range, or the domain.
pub fn bad_counts(counts: Counts) -> bool
    ensures { (result ≡ true) ↔ CountsOut counts }
{
    FLUENT_LIMIT < counts.fluents
        || counts.actions < 1
        || ACTION_LIMIT < counts.actions
        || DOMAIN_LIMIT < counts.domain
}

// All fluents that the masks name, in one mask.
#[tactic(auto, using(crate::proofs::Lacking::union_none, crate::proofs::Lacking::union_more))]
fn union(masks: &[u32]) -> u32
    ensures { Union masks.now (length masks.now) result }
{
    let mut all = 0;
    for mask in masks {
        all |= *mask;
    }
    all
}

// A mask names a fluent that a theory of so many fluents lacks.
pub fn names_lacking(fluents: usize, mask: u32) -> bool
    requires { fluents < 64 }
    ensures { (result ≡ true) ↔ NamesLacking fluents mask }
{
    let beyond = u64::from(mask) >> fluents;
    beyond != 0
}

// Start or a mask of the table names a fluent that the theory lacks.
pub fn bad_masks(fluents: usize, start: u32, masks: &[u32]) -> bool
    requires { fluents < 64 }
    ensures { (result ≡ true) ↔ BadMasks fluents start masks.now }
{
    let all = union(masks);
    let named = start | all;
    names_lacking(fluents, named)
}

// The log is too long, or has an action that the theory lacks.
pub fn bad_log(actions: usize, log: &[u8]) -> bool
    ensures { (result ≡ true) ↔ BadLog log_limit actions log.now }
{
    PositionSet::LOG_LIMIT < log.len() || log.iter().any(|a| actions <= usize::from(*a))
}

// The counts, the reading and the table's length, then what the masks name.
pub fn check_theory(s: Setting, masks: &[u32]) -> Result<(), Refusal>
    ensures { Settled (theory_rows s masks.now) result }
{
    let counts = s.counts;
    if bad_counts(counts) || READING_LIMIT < s.reading || masks.len() != STRIDE * counts.actions {
        return Err(Refusal::BadNumber);
    }
    if bad_masks(counts.fluents, s.start, masks) {
        return Err(Refusal::LacksFluent);
    }
    Ok(())
}

// The theory, then the log.
pub fn check_world(asked: Asked) -> Result<(), Refusal>
    ensures { Settled (world_rows (subject asked.entry)) result }
{
    check_theory(asked.setting, asked.masks)?;
    if bad_log(asked.setting.counts.actions, asked.log) {
        return Err(Refusal::BadLog);
    }
    Ok(())
}
