#![tactic(auto)]
// The search for the sequence that finishes a job: shorter before longer, then smaller action numbers first. Knows the theory, the log and the job's text.
ghost use Rattle.std.specs.Prelude.{length};
ghost use Rattle.meaning.specs.Refusal.{Accepted, no_count};
ghost use Rattle.refusal.specs.Given.{number_given, value_given};
ghost use Rattle.theory.specs.Subject.{subject};
ghost use Rattle.finish.specs.Rows.{check_rows};
ghost use Rattle.finish.specs.Answer.{FinishAnswered};
ghost use Rattle.finish.specs.Next.{no_actions, NextAnswered};
ghost use Rattle.finish.specs.Found.{SoughtTold};

mod checks; // checks.rt: which refusal the call is given before it searches
mod follow; // follow.rt: how long a job can still be behind each step sign
mod truth; // truth.rt: a job, and which of its tests can still come true
mod search; // search.rt: the search itself
mod tries; // tries.rt: the actions to try next

use grammar::ends::{ENDS_ROOM, fill_ends};
use positions::PositionSet;
use refusal::Refusal;
use theory::Asked;
use truth::Job;

// The largest bound on the sequence's length.
pub const MORE_LIMIT: usize = 6;

// The search, once every check is passed: for whoever has passed them.
pub fn seek(asked: Asked, job: &[u8], more: usize, out: &mut [u8]) -> Result<usize, Refusal>
    requires { Accepted (check_rows (subject asked) job.now more (length out.old)) }
    ensures { SoughtTold (subject asked.entry) job.now more out.old out.new result }
{
    let mut ends = [0u8; ENDS_ROOM];
    fill_ends(job, &mut ends);
    // the library takes no memory of its own, so room for the longest log, and beside it how much of the room is in use
    let mut trail = [0u8; PositionSet::PLACES];
    let n = asked.log.len();
    trail[..n].copy_from_slice(asked.log);
    let job = Job {
        text: job,
        ends: &ends,
    };
    let k = search::first(asked.setting, asked.masks, job, &mut trail, n, more).ok_or(
        Refusal::NoFinish,
    )?;
    out[..k].copy_from_slice(&trail[n..n + k]);
    Ok(k)
}

// "The first action sequence": its bytes go to the front of the lent output, the rest of which keeps its content. Answers a refusal, or how many actions the sequence
// has that was written.
pub fn finish(asked: Asked, job: &[u8], more: usize, out: &mut [u8]) -> Result<usize, Refusal>
    ensures { FinishAnswered (subject asked.entry) job.now more out.old (number_given result) (value_given no_count result) out.new }
{
    checks::check(asked, job, more, out.len())?;
    seek(asked, job, more, out)
}

// Which actions may come next: those that the job waits for at the log's end and that are possible there. Answers a refusal, or the actions, bit a for action a.
pub fn next(asked: Asked, job: &[u8]) -> Result<u64, Refusal>
    ensures { NextAnswered (subject asked.entry) job.now (number_given result) (value_given no_actions result) }
{
    checks::check_job(asked, job)?;
    let mut ends = [0u8; ENDS_ROOM];
    fill_ends(job, &mut ends);
    // every sign may ask, whatever follows
    let all = [255u8; ENDS_ROOM];
    let job = Job {
        text: job,
        ends: &ends,
    };
    Ok(tries::coming(asked, job, &all, 0))
}
