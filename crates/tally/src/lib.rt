#![tactic(auto)]
// A running tally beside the log of one job: each action's count of possible occurrences and its last one, the last impossible step, and what the next append
// needs. A place is kept as the position after the step, 0 for none, so that the quick yes is one comparison. Knows theory and log, and no rule.
ghost use Rattle.std.specs.Prelude.{◌≡◌};
ghost use Rattle.refusal.specs.Given.{number_given, value_given};
ghost use Rattle.theory.specs.Subject.{setting_of, subject_of};
ghost use Rattle.theory.specs.Possible.{verdict_given};
ghost use Rattle.tally.specs.Calls.{Remade, Appended, HappenedAnswered};

mod grow; // grow.rt: one step more, and the steps of a log

use positions::PositionSet;
use refusal::Refusal;
use theory::{ACTION_LIMIT, Asked, Setting, faults};

// The record that the scheduler lends. Any bytes are a record; one that the library did not make is taken by its fields as they stand.
#[derive(Clone, Copy)]
#[repr(C)]
pub struct Tally {
    // how often each action was taken, and the position after its last time
    pub counts: [u8; ACTION_LIMIT],
    pub last: [u8; ACTION_LIMIT],
    // the state at the log's end
    pub state: u32,
    // the log's steps, and the position after the last impossible one
    pub steps: u8,
    pub impossible: u8,
}

// The record of a log, made afresh; on a refusal it is as it was, which the clause says of `t`: no line of the body reads it.
pub fn remade(
    fluents: usize,
    actions: usize,
    start: u32,
    masks: &[u32],
    log: &[u8],
    t: Tally,
) -> Result<Tally, Refusal>
    ensures { Remade (subject_of (setting_of fluents actions 0 start 0) masks.now log.now) t (number_given result) (value_given t result) }
{
    let setting = Setting::of(fluents, actions, 0, start, 0);
    let asked = Asked {
        setting,
        masks,
        log,
    };
    faults::check_world(asked)?;
    Ok(grow::over(asked))
}

// The record with one action more. An impossible one is taken in too. On a refusal it is as it was.
pub fn appended(
    fluents: usize,
    actions: usize,
    start: u32,
    masks: &[u32],
    t: Tally,
    action: usize,
) -> Result<Tally, Refusal>
    ensures { Appended (setting_of fluents actions 0 start 0) masks.now t action (number_given result) (value_given t result) }
{
    let s = Setting::of(fluents, actions, 0, start, 0);
    faults::check_theory(s, masks)?;
    if PositionSet::LOG_LIMIT <= usize::from(t.steps) || actions <= action {
        return Err(Refusal::BadLog);
    }
    Ok(grow::grown(masks, action, t))
}

// The quick yes: the action's last possible occurrence comes after the last impossible step.
pub fn compared(
    actions: usize,
    last: &[u8; ACTION_LIMIT],
    impossible: u8,
    action: usize,
) -> Result<bool, Refusal>
    ensures { HappenedAnswered actions last.now impossible action (number_given result) (verdict_given result) }
{
    if actions < 1 || ACTION_LIMIT < actions {
        return Err(Refusal::BadNumber);
    }
    if actions <= action {
        return Err(Refusal::LacksName);
    }
    Ok(impossible < last[action])
}

// The same of a whole record.
pub fn happened(actions: usize, t: Tally, action: usize) -> Result<bool, Refusal>
    ensures { HappenedAnswered actions t.last t.impossible action (number_given result) (verdict_given result) }
{
    compared(actions, &t.last, t.impossible, action)
}

// What a call leaves in the record that it was lent: what it made, and on a refusal what stood there. And its number.
fn left(t: &mut Tally, made: Result<Tally, Refusal>) -> u8
    ensures number { result ≡ number_given made }
    ensures kept { t.new ≡ value_given t.old made }
{
    match made {
        Ok(tally) => {
            *t = tally;
            0
        }
        Err(why) => u8::from(why),
    }
}

// The record lent, and made afresh; on a refusal it stays as it is.
pub fn reset(
    fluents: usize,
    actions: usize,
    start: u32,
    masks: &[u32],
    log: &[u8],
    t: &mut Tally,
) -> u8
    ensures { Remade (subject_of (setting_of fluents actions 0 start 0) masks.now log.now) t.old result t.new }
{
    let made = remade(fluents, actions, start, masks, log, *t);
    left(t, made)
}

// The record lent, and one action appended; on a refusal it stays as it is.
pub fn append(
    fluents: usize,
    actions: usize,
    start: u32,
    masks: &[u32],
    t: &mut Tally,
    action: usize,
) -> u8
    ensures { Appended (setting_of fluents actions 0 start 0) masks.now t.old action result t.new }
{
    let longer = appended(fluents, actions, start, masks, *t, action);
    left(t, longer)
}
