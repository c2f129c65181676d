// One step more in a record, and a record grown step by step over a log. A theory and a log are checked before.
ghost use Rattle.std.specs.Prelude.{◌≡◌, ◌+◌, ◌*◌, ◌≤◌, ◌<◌, length};
ghost use Rattle.meaning.specs.Limits.{action_limit, log_limit};
ghost use Rattle.meaning.specs.Theory.{stride};
ghost use Rattle.theory.specs.Subject.{Readable, subject, table_masks, world_of};
ghost use Rattle.tally.specs.Record.{TallyOf, one_added, Grown};

use crate::Tally;
use positions::PositionSet;
use theory::{ACTION_LIMIT, Asked, step};

// No log has an action more often than it may have steps, so a count from elsewhere that is as large stays.
fn one_more(count: u8) -> u8
    ensures { result ≡ one_added count }
{
    if PositionSet::LOG_LIMIT <= usize::from(count) {
        count
    } else {
        count + 1
    }
}

// The record with one action more: its effects apply, and it is counted if it was possible.
pub(crate) fn grown(masks: &[u32], a: usize, t: Tally) -> Tally
    requires { (stride * a + stride ≤ length masks.now) × (a < action_limit) × (t.steps < log_limit) }
    ensures { Grown (table_masks masks.now a) a t result }
{
    let able = step::able(masks, a, t.state);
    let state = step::act(masks, a, t.state);
    let steps = t.steps + 1;
    let mut next = Tally { state, steps, ..t };
    if able {
        next.counts[a] = one_more(t.counts[a]);
        next.last[a] = steps;
    } else {
        next.impossible = steps;
    }
    next
}

// The record of a log.
pub(crate) fn over(asked: Asked) -> Tally
    requires { Readable asked.masks.now asked.log.now }
    ensures { TallyOf (world_of (subject asked.entry)) result }
{
    let mut t = Tally {
        counts: [0; ACTION_LIMIT],
        last: [0; ACTION_LIMIT],
        state: asked.setting.start,
        steps: 0,
        impossible: 0,
    };
    for a in asked.log {
        t = grown(asked.masks, usize::from(*a), t);
    }
    t
}
