#![tactic(auto)]
// The exported functions about the state at a position: thin over a proved call each, they promise what that call promises. A slice is a pointer and a length in C; a number beside the refusal is a
// lent slot, which is always written. They have no rule, so neither domain nor reading.
ghost use Rattle.theory.specs.Answer.{StateAnswered};
ghost use Rattle.theory.specs.Possible.{PossibleAnswered};
ghost use Rattle.exported.specs.Exported.{asked, InSlot};

use exported::{told, verdict_told};
use theory::{Asked, Setting};

// The state at a position of the log.
#[unsafe(no_mangle)]
pub extern "C" fn wyh_state(
    fluents: usize,
    actions: usize,
    start: u32,
    masks: &[u32],
    log: &[u8],
    position: usize,
    state: &mut u32,
) -> u8
    ensures { StateAnswered (asked fluents actions 0 start 0 masks.now log.now) position result state.new }
{
    let setting = Setting::of(fluents, actions, 0, start, 0);
    let asked = Asked {
        setting,
        masks,
        log,
    };
    told(theory::state(asked, position), 0, state)
}

// Whether an action may be taken at a position of the log: 1 or 0 in the slot.
#[unsafe(no_mangle)]
pub extern "C" fn wyh_possible(
    fluents: usize,
    actions: usize,
    start: u32,
    masks: &[u32],
    log: &[u8],
    action: usize,
    position: usize,
    yes: &mut u8,
) -> u8
    ensures { InSlot (PossibleAnswered (asked fluents actions 0 start 0 masks.now log.now) action position result) yes.new }
{
    let setting = Setting::of(fluents, actions, 0, start, 0);
    let asked = Asked {
        setting,
        masks,
        log,
    };
    verdict_told(theory::possible(asked, action, position), yes)
}
