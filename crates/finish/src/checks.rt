// Which refusal a call about a job is given before anything is searched: theory and log, then the job; and for the finishing sequence more, first of all,
// and the room, last.
ghost use Rattle.theory.specs.Check.{Settled};
ghost use Rattle.theory.specs.Subject.{subject};
ghost use Rattle.finish.specs.Rows.{check_rows};
ghost use Rattle.finish.specs.Next.{next_rows};

use crate::MORE_LIMIT;
use refusal::Refusal;
use rule::{Kind, check_rule};
use theory::Asked;
use theory::faults::check_world;

pub(crate) fn check_job(asked: Asked, job: &[u8]) -> Result<(), Refusal>
    ensures { Settled (next_rows (subject asked.entry) job.now) result }
{
    check_world(asked)?;
    check_rule(job, Kind::Job, asked.setting.counts)
}

pub(crate) fn check(asked: Asked, job: &[u8], more: usize, room: usize) -> Result<(), Refusal>
    ensures { Settled (check_rows (subject asked.entry) job.now more room) result }
{
    if MORE_LIMIT < more {
        return Err(Refusal::BadNumber);
    }
    check_job(asked, job)?;
    if room < more {
        return Err(Refusal::ShortOutput);
    }
    Ok(())
}
