#![tactic(auto)]
// The exported functions of the carton desk: thin over the desk's own, whose answer they tell as a number and a lent slot, which is always written. A slice is a
// pointer and a length in C, a lent number a pointer.
ghost use Rattle.desk.specs.Answer.{LowestAnswered, PrintAnswered};

use exported::{told, verdict_told};

// Whether the label may be printed at the log's end: 1 or 0 in the slot.
#[unsafe(no_mangle)]
pub extern "C" fn desk_may_print(cartons: usize, log: &[u8], label: usize, yes: &mut u8) -> u8
    ensures { PrintAnswered cartons log.now label result yes.new }
{
    verdict_told(desk::may_print(cartons, log, label), yes)
}

// The lowest label that is not out at the log's end; 0 where all are out.
#[unsafe(no_mangle)]
pub extern "C" fn desk_lowest(cartons: usize, log: &[u8], label: &mut usize) -> u8
    ensures { LowestAnswered cartons log.now result label.new }
{
    let first = desk::lowest(cartons, log).map(|first| first.unwrap_or(0));
    told(first, 0, label)
}
