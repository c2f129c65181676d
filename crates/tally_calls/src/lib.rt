#![tactic(auto)]
// The exported functions for a running tally: thin over a proved call each, they promise what that call promises. A slice is a pointer and a length in C; a number beside the refusal is a lent slot, which
// is always written. They have no rule, so neither domain nor reading.
ghost use Rattle.theory.specs.Subject.{setting_of};
ghost use Rattle.tally.specs.Calls.{Remade, Appended, HappenedAnswered};
ghost use Rattle.exported.specs.Exported.{asked, InSlot};

use exported::verdict_told;
use tally::Tally;
use theory::ACTION_LIMIT;

// The record of the log, made afresh in the lent one, which a refusal leaves as it was.
#[unsafe(no_mangle)]
pub extern "C" fn wyh_tally(
    fluents: usize,
    actions: usize,
    start: u32,
    masks: &[u32],
    log: &[u8],
    tally: &mut Tally,
) -> u8
    ensures { Remade (asked fluents actions 0 start 0 masks.now log.now) tally.old result tally.new }
{
    tally::reset(fluents, actions, start, masks, log, tally)
}

// One action more in the lent record, which a refusal leaves as it was.
#[unsafe(no_mangle)]
pub extern "C" fn wyh_append(
    fluents: usize,
    actions: usize,
    start: u32,
    masks: &[u32],
    tally: &mut Tally,
    action: usize,
) -> u8
    ensures { Appended (setting_of fluents actions 0 start 0) masks.now tally.old action result tally.new }
{
    tally::append(fluents, actions, start, masks, tally, action)
}

// Whether the action has happened, with only possible steps since, by two places of a record: 1 or 0 in the slot.
#[unsafe(no_mangle)]
pub extern "C" fn wyh_happened(
    actions: usize,
    last: &[u8; ACTION_LIMIT],
    impossible: u8,
    action: usize,
    yes: &mut u8,
) -> u8
    ensures { InSlot (HappenedAnswered actions last.now impossible action result) yes.new }
{
    verdict_told(tally::compared(actions, last, impossible, action), yes)
}
