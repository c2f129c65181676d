#![tactic(auto)]
// The carton desk, for packers who write no rules: whether a label may be printed, and which is the lowest that is not out. It asks the library about a theory
// in which the print of a label needs all lower ones, and knows of its calls what they promise. Nothing is kept between calls.
ghost use Rattle.std.specs.Prelude.{MatchResult, length, ◌≡◌, ◌+◌, ◌≤◌};
ghost use Rattle.refusal.specs.Number.{number_of};
ghost use Rattle.refusal.specs.Given.{number_given, value_given};
ghost use Rattle.theory.specs.Possible.{verdict_given};
ghost use Rattle.theory.specs.Subject.{setting_of};
ghost use Rattle.meaning.specs.Refusal.{Refused};
ghost use Rattle.exported.specs.Exported.{slot_of};
ghost use Rattle.desk.specs.Log.{step_limit};
ghost use Rattle.desk.specs.Answer.{BadCartons, PrintAnswered, NextAnswered, lowest_rows};
ghost use Rattle.desk.specs.Labels.{LabelTheory};

mod labels; // labels.rt: the theory that the library is asked about, and the state read as labels

use labels::ROOM;
use refusal::Refusal;
use theory::{Asked, Setting};

// The desk's own limits; how long a log the library takes is another matter.
pub const CARTON_LIMIT: usize = 16;

pub const LOG_LIMIT: usize = 63;

// Whether the cartons and the log are within the desk's limits. It is asked before a room for the table is cleared, so that a refusal does not pay for one.
fn within(cartons: usize, log: &[u8]) -> Result<(), Refusal>
    ensures { MatchResult result (λ _. (¬ BadCartons cartons) × (length log.now ≤ step_limit)) (λ why. Refused (lowest_rows cartons log.now) (number_of why)) }
{
    if labels::bad_cartons(cartons) {
        return Err(Refusal::BadNumber);
    }
    if LOG_LIMIT < log.len() {
        return Err(Refusal::BadLog);
    }
    Ok(())
}

// What the library is asked of: the theory of the job, its table in the front of the lent room.
fn asked_of<'a>(cartons: usize, log: &'a [u8], room: &'a mut [u32; ROOM]) -> Asked<'a>
    requires { ¬ BadCartons cartons }
    ensures { LabelTheory cartons result.masks.now × (result.setting ≡ setting_of cartons (cartons + 1) 0 0 0) × (result.log.now ≡ log.now) }
{
    let masks = labels::fill(cartons, room);
    let setting = Setting::of(cartons, cartons + 1, 0, 0, 0);
    Asked {
        setting,
        masks,
        log,
    }
}

// Whether the label may be printed at the log's end.
pub fn may_print(cartons: usize, log: &[u8], label: usize) -> Result<bool, Refusal>
    ensures { PrintAnswered cartons log.now label (number_given result) (slot_of (verdict_given result)) }
{
    if labels::bad_label(cartons, label) {
        return Err(Refusal::BadNumber);
    }
    within(cartons, log)?;
    let mut room = [0u32; ROOM];
    let asked = asked_of(cartons, log, &mut room);
    theory::possible(asked, label - 1, log.len())
}

// The lowest label that is not out at the log's end, if not all are.
pub fn lowest(cartons: usize, log: &[u8]) -> Result<Option<usize>, Refusal>
    ensures { NextAnswered cartons log.now (number_given result) (value_given None result) }
{
    within(cartons, log)?;
    let mut room = [0u32; ROOM];
    let asked = asked_of(cartons, log, &mut room);
    let out = theory::state(asked, log.len())?;
    Ok(labels::lowest(cartons, out))
}
