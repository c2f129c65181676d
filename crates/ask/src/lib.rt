#![tactic(auto)]
// Reach and verdict: a rule asked about a log. Knows the tables that the log was transposed into, and no state.
ghost use Rattle.std.proofs.Math.Option.{some};
ghost use Rattle.meaning.specs.Rule.{test_kind};
ghost use Rattle.meaning.specs.Refusal.{Accepted};
ghost use Rattle.refusal.specs.Given.{number_given};
ghost use Rattle.theory.specs.Subject.{subject};
ghost use Rattle.ask.specs.Rows.{ask_rows};
ghost use Rattle.ask.specs.Reach.{reached_given, ReachAnswered};
ghost use Rattle.theory.specs.Possible.{verdict_given};
ghost use Rattle.ask.specs.Verdict.{SoundTest, TestTold, TestJudged, VerdictAnswered};

pub mod checks; // checks.rt: which refusal a question is given
pub mod job; // job.rt: a job over a log as it stands
mod layout; // layout.rt: what the evaluator reads of a question

use checks::check;
use evaluator::run;
use grammar::ends::{ENDS_ROOM, fill_ends};
use layout::lay_out;
use positions::PositionSet;
use refusal::Refusal;
use rule::Kind;
use tables::{ROWS, transpose};
use theory::{Asked, Setting};

// What `reach` finds: the set of positions with bit q for position q, their count and the earliest.
#[derive(Clone, Copy, Debug, PartialEq, Eq)]
pub struct Reached {
    pub set: u64,
    pub count: usize,
    pub earliest: usize,
}

// The positions that a walk leads to from `then`, with this now.
pub fn reach(asked: Asked, walk: &[u8], then: usize, now: usize) -> Result<Reached, Refusal>
    ensures { ReachAnswered (subject asked.entry) walk.now then now (number_given result) (reached_given result).set (reached_given result).count (reached_given result).earliest }
{
    check(asked, walk, Kind::Walk, then, now)?;
    let mut ends = [0; ENDS_ROOM];
    let mut rows = [0; ROWS];
    lay_out(asked, walk, &mut ends, &mut rows);
    let from = PositionSet::at(then);
    let s = asked.setting;
    let found = run::walk(
        walk,
        &ends,
        s.counts.domain,
        s.reading,
        s.reading,
        from,
        now,
        &rows,
    );
    Ok(Reached {
        set: found.word(),
        count: found.count(),
        earliest: found.earliest(),
    })
}

// Whether a test is true at `then`, with this now, over the log that the rows are of: for whoever asks more than one test of it, and has passed every check.
pub fn true_at(s: Setting, test: &[u8], rows: &[u64; ROWS], then: usize, now: usize) -> bool
    requires { SoundTest test.now }
    ensures { TestTold test.now s.counts.domain s.reading rows.now then now result }
{
    let mut ends = [0; ENDS_ROOM];
    fill_ends(test, &mut ends);
    let among = PositionSet::at(then);
    let kept = run::test(test, &ends, s.counts.domain, s.reading, among, now, rows);
    kept.has(then)
}

// Whether a test is true at `then`, with this now, once every check is passed: for whoever has passed them.
pub fn judged(asked: Asked, test: &[u8], then: usize, now: usize) -> bool
    requires { Accepted (ask_rows test_kind (subject asked) test.now then now) }
    ensures { TestJudged (subject asked.entry) test.now then now (some result) }
{
    let mut rows = [0; ROWS];
    transpose(asked, &mut rows);
    true_at(asked.setting, test, &rows, then, now)
}

// Whether a test is true at `then`, with this now.
pub fn verdict(asked: Asked, test: &[u8], then: usize, now: usize) -> Result<bool, Refusal>
    ensures { VerdictAnswered (subject asked.entry) test.now then now (number_given result) (verdict_given result) }
{
    check(asked, test, Kind::Test, then, now)?;
    Ok(judged(asked, test, then, now))
}
