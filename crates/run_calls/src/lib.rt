#![tactic(auto)]
// The exported functions for a job that is to be carried out: thin over a proved call each, they promise what that call promises. A slice is a pointer and a length in C; a number beside the refusal is
// a lent slot, which is always written. They have the domain of the rule's variables, 0 where it has none, and how a test inside a walk is read, 0 for `step`, 1 for `end`.
ghost use Rattle.finish.specs.Answer.{FinishAnswered};
ghost use Rattle.finish.specs.Next.{NextAnswered};
ghost use Rattle.exported.specs.Exported.{asked};

use exported::told;
use theory::{Asked, Setting};

// The actions that may come next in the job, bit a for action a.
#[unsafe(no_mangle)]
pub extern "C" fn wyh_next(
    fluents: usize,
    actions: usize,
    domain: usize,
    start: u32,
    reading: usize,
    masks: &[u32],
    log: &[u8],
    job: &[u8],
    next: &mut u64,
) -> u8
    ensures { NextAnswered (asked fluents actions domain start reading masks.now log.now) job.now result next.new }
{
    let setting = Setting::of(fluents, actions, domain, start, reading);
    let asked = Asked {
        setting,
        masks,
        log,
    };
    told(finish::next(asked, job), 0, next)
}

// The first sequence that finishes the job, at the front of the output.
#[unsafe(no_mangle)]
pub extern "C" fn wyh_finish(
    fluents: usize,
    actions: usize,
    domain: usize,
    start: u32,
    reading: usize,
    masks: &[u32],
    log: &[u8],
    job: &[u8],
    more: usize,
    out: &mut [u8],
    count: &mut usize,
) -> u8
    ensures { FinishAnswered (asked fluents actions domain start reading masks.now log.now) job.now more out.old result count.new out.new }
{
    let setting = Setting::of(fluents, actions, domain, start, reading);
    let asked = Asked {
        setting,
        masks,
        log,
    };
    told(finish::finish(asked, job, more, out), 0, count)
}
