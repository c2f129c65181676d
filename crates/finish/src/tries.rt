// Which actions may come next: one answer, a word with bit a for action a.
ghost use Rattle.meaning.specs.Lengths.{allows};
ghost use Rattle.theory.specs.Subject.{subject, world_of};
ghost use Rattle.standins.specs.Worth.{Table};
ghost use Rattle.finish.specs.Sound.{Node, Shown};
ghost use Rattle.finish.specs.Found.{Doable, NextTold};

use crate::truth::Job;
use ask::job;
use grammar::ends::ENDS_ROOM;
use tables::{ROWS, transpose};
use theory::{Asked, log, step};

// The actions that are possible in this state.
fn doable(actions: usize, masks: &[u32], state: u32) -> u64
    requires { Table actions masks.now }
    ensures { Doable actions masks.now state result }
{
    let mut these: u64 = 0;
    for a in 0..actions {
        if step::able(masks, a, state) {
            these |= 1 << a;
        }
    }
    these
}

// The actions that may come next, with so many to follow: those that are possible in the state behind the log and that the job asks for there. No other could begin a rest of that length that
// finishes the job. The log is what the rows describe.
pub(crate) fn tries(
    asked: Asked,
    job: Job,
    rows: &[u64; ROWS],
    state: u32,
    follow: &[u8; ENDS_ROOM],
    left: usize,
) -> u64
    requires { Node asked.setting.counts.actions asked.masks.now job.text.now job.ends.now asked.log.now × Shown (world_of (subject asked)) rows.now state }
    ensures { NextTold (allows follow.now left) (subject asked.entry) job.entry.text.now result }
{
    let end = asked.log.len();
    let s = asked.setting;
    let waited = job::asked(s, job.text, job.ends, rows, end, follow, left);
    let able = doable(s.counts.actions, asked.masks, state);
    able & waited
}

// The same over a log whose rows are still to be made.
pub(crate) fn coming(asked: Asked, job: Job, follow: &[u8; ENDS_ROOM], left: usize) -> u64
    requires { Node asked.setting.counts.actions asked.masks.now job.text.now job.ends.now asked.log.now }
    ensures { NextTold (allows follow.now left) (subject asked.entry) job.entry.text.now result }
{
    let mut rows = [0u64; ROWS];
    transpose(asked, &mut rows);
    let state = log::state_at(asked, asked.log.len());
    tries(asked, job, &rows, state, follow, left)
}
