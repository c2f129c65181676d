// A job over a log as its rows describe it, for whoever looks for its end: whether it has come to it, and which actions it asks for next. The table of ends is made once, since the job stays
// while the log grows; and the rows are the caller's, who puts a step on them and takes it off again.
ghost use Rattle.meaning.specs.Lengths.{allows};
ghost use Rattle.runs.specs.Found.{WalkHere};
ghost use Rattle.ask.specs.Asked.{EndTold, AskTold};

use evaluator::run;
use grammar::ends::ENDS_ROOM;
use positions::PositionSet;
use slots::STEP;
use tables::ROWS;
use theory::Setting;

// The job leads from 0 to the log's end.
pub fn ended(s: Setting, job: &[u8], ends: &[u8; ENDS_ROOM], rows: &[u64; ROWS], end: usize) -> bool
    requires { WalkHere job.now ends.now 0 }
    ensures { EndTold job.now s.counts.domain s.reading rows.now end result }
{
    let domain = s.counts.domain;
    let front = PositionSet::at(0);
    let reached = run::walk(job, ends, domain, STEP, s.reading, front, end, rows);
    reached.has(end)
}

// The actions that the job asks for at the log's end, bit a for action a, by the step signs that may have so many steps behind them.
pub fn asked(
    s: Setting,
    job: &[u8],
    ends: &[u8; ENDS_ROOM],
    rows: &[u64; ROWS],
    end: usize,
    follow: &[u8; ENDS_ROOM],
    left: usize,
) -> u64
    requires { WalkHere job.now ends.now 0 }
    ensures { AskTold (allows follow.now left) job.now s.counts.domain s.reading rows.now end result }
{
    let domain = s.counts.domain;
    let front = PositionSet::at(0);
    run::asks(job, ends, domain, s.reading, front, end, rows, follow, left)
}
