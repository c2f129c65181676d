#![tactic(auto)]
// What the exported functions have in common: what they are asked of, from loose numbers, and an answer as a number with a lent slot beside it. A C function
// can answer no `Result`: it answers 0 or the refusal's number, and the value goes into the slot, which is always written.
ghost use Rattle.std.specs.Prelude.{◌≡◌};
ghost use Rattle.refusal.specs.Given.{number_given, value_given};
ghost use Rattle.theory.specs.Possible.{verdict_given};
ghost use Rattle.exported.specs.Exported.{slot_of};

use refusal::Refusal;

// A value in its slot; on a refusal the slot has the blank one.
pub fn told<T: Copy>(answer: Result<T, Refusal>, blank: T, slot: &mut T) -> u8
    ensures number { result ≡ number_given answer }
    ensures value { slot.new ≡ value_given blank answer }
{
    match answer {
        Ok(value) => {
            *slot = value;
            0
        }
        Err(why) => {
            *slot = blank;
            u8::from(why)
        }
    }
}

// A verdict in its slot: 1 for yes, 0 for no; 0 on a refusal too.
pub fn verdict_told(answer: Result<bool, Refusal>, yes: &mut u8) -> u8
    ensures number { result ≡ number_given answer }
    ensures verdict { yes.new ≡ slot_of (verdict_given answer) }
{
    told(answer.map(u8::from), 0, yes)
}
