// The answer to an accepted sheet, as a value: its three questions are asked, each behind its checks, which reading the sheet has made.
ghost use Rattle.theory.specs.Subject.{subject};
ghost use Rattle.answer.specs.Respond.{saying, Askable, Responded};

use crate::{Answered, Ending};
use finish::MORE_LIMIT;
use theory::{Asked, log};

pub(crate) fn respond(asked: Asked, test: &[u8], job: &[u8], more: usize) -> Answered
    requires { Askable (saying (subject asked) test.now job.now more) }
    ensures { Responded (saying (subject asked.entry) test.now job.now more) result }
{
    let end = asked.log.len();
    let yes = ask::judged(asked, test, end, end);
    let state = log::state_at(asked, end);
    let mut steps = [0u8; MORE_LIMIT];
    let finish = match finish::seek(asked, job, more, &mut steps) {
        Ok(count) => Some(Ending { steps, count }),
        Err(_) => None,
    };
    Answered { yes, state, finish }
}
