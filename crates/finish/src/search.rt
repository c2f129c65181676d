// The search: lengths from 0 up, in each depth first in action order, over one trail and the rows of its log, which grow and shrink in place. How long the job can be behind each of its signs is
// found once, where it is not finished as it stands.
ghost use Rattle.std.specs.Prelude.{◌≤◌, length, take};
ghost use Rattle.meaning.specs.Limits.{more_limit, text_limit};
ghost use Rattle.theory.specs.Subject.{subject_of, world_of};
ghost use Rattle.finish.specs.Sound.{Ready, Shown};
ghost use Rattle.finish.specs.Lengths.{Guided};
ghost use Rattle.finish.specs.Found.{LengthTold, RowsKept, FinishTold};
ghost use Rattle.finish.specs.Spared.{Spared};

use crate::follow::fill;
use crate::tries::tries;
use crate::truth::Job;
use ask::job;
use grammar::ends::ENDS_ROOM;
use positions::PositionSet;
use standins::worth;
use tables::{ROWS, toggle, transpose};
use theory::{Asked, Setting, log, step};

// The first sequence of exactly `left` actions behind the first n of the trail: whether there is one; it then stands there.
fn complete(
    s: Setting,
    masks: &[u32],
    job: Job,
    follow: &[u8; ENDS_ROOM],
    trail: &mut [u8],
    rows: &mut [u64; ROWS],
    n: usize,
    left: usize,
    state: u32,
    worthy: u64,
) -> bool
    requires { Ready s.counts.actions masks.now job.text.now job.ends.now trail.old n left × Guided (subject_of s masks.now (take n trail.old)) job.text.now follow.now left × Spared s masks.now job.text.now worthy × Shown (world_of (subject_of s masks.now (take n trail.old))) rows.old state }
    ensures { LengthTold s masks.now job.entry.text.now trail.old n left trail.new result × RowsKept (world_of (subject_of s masks.now (take n trail.old))) result rows.new }
{
    let counts = s.counts;
    if left == 0 {
        return job::ended(s, job.text, job.ends, rows, n);
    }
    let rest = left - 1;
    let next = n + 1;
    let asked = Asked {
        setting: s,
        masks,
        log: &trail[..n],
    };
    let waited = tries(asked, job, rows, state, follow, rest);
    let tried = waited & worthy;
    for a in 0..counts.actions {
        let from_a = tried >> a;
        if from_a % 2 == 1 {
            trail[n] = a as u8;
            let behind = step::act(masks, a, state);
            toggle(rows, a, n, behind);
            if complete(
                s, masks, job, follow, trail, rows, next, rest, behind, worthy,
            ) {
                return true;
            }
            toggle(rows, a, n, behind);
        }
    }
    false
}

// The first sequence of all that finish the job: how many actions it has; they then stand behind the first n of the trail, which hold the log.
pub(crate) fn first(
    s: Setting,
    masks: &[u32],
    job: Job,
    trail: &mut [u8],
    n: usize,
    more: usize,
) -> Option<usize>
    requires { Ready s.counts.actions masks.now job.text.now job.ends.now trail.old n 0 × (length job.text.now ≤ text_limit) × (more ≤ more_limit) }
    ensures { FinishTold s masks.now job.entry.text.now trail.old n more trail.new result }
{
    let asked = Asked {
        setting: s,
        masks,
        log: &trail[..n],
    };
    let mut rows = [0u64; ROWS];
    transpose(asked, &mut rows);
    let counts = s.counts;
    if job::ended(s, job.text, job.ends, &rows, n) {
        return Some(0);
    }
    // at most `more` actions, and log and sequence together at most a log
    let most = more.min(PositionSet::LOG_LIMIT - n);
    if most == 0 {
        return None;
    }
    let worthy = worth(counts.actions, masks, job.text);
    let mut follow = [0u8; ENDS_ROOM];
    fill(asked, job, &mut follow);
    let state = log::state_at(asked, n);
    for k in 1..=most {
        if complete(
            s, masks, job, &follow, trail, &mut rows, n, k, state, worthy,
        ) {
            return Some(k);
        }
    }
    None
}
