// A job with the table of its ends, and whether a test of it may come true, or untrue, as far as the fluents say that can still be on or off; a `<` may have either truth, and so may a `g`, whose
// variable may have any value.
ghost use Rattle.std.specs.Prelude.{◌≡◌, false, ◌+◌, length};
ghost use Rattle.meaning.specs.Limits.{text_limit};
ghost use Rattle.runs.specs.Found.{TestHere};
ghost use Rattle.finish.specs.Lengths.{Lacks, MayTold};

use grammar::ends::{ENDS_ROOM, second};
use spelling::scan::two_digits;
use theory::FLUENT_LIMIT;

// A job: its text, and where each rule of it ends.
#[derive(Clone, Copy)]
pub(crate) struct Job<'a> {
    pub text: &'a [u8],
    pub ends: &'a [u8; ENDS_ROOM],
    // the table has a byte for each place, and for the end
    pub ghost room: { length ends.now ≡ text_limit + 1 },
}

// The fluents that can be on, and those that can be off, in a state or in any to which actions lead from it.
#[derive(Clone, Copy)]
pub struct Turning {
    pub ons: u32,
    pub offs: u32,
}

// The fluent that is named at a place is one of these, or one that no state has.
fn named_among(text: &[u8], at: usize, fluents: u32) -> bool
    ensures { result ≡ false → Lacks text.now at fluents }
{
    let Some(i) = two_digits(text, at) else {
        return true;
    };
    let place = i as usize;
    FLUENT_LIMIT <= place || (fluents >> place) % 2 == 1
}

impl<'a> Job<'a> {
    // The test at a place may have this truth.
    pub(crate) fn may_be(self, at: usize, truth: bool, turning: Turning) -> bool
        requires { TestHere self.text.now self.ends.now at }
        ensures { MayTold self.entry.text.now at truth turning.ons turning.offs result }
    {
        let part = at + 1;
        match self.text[at] {
            b'1' => truth,
            b'f' => {
                let fluents = if truth { turning.ons } else { turning.offs };
                named_among(self.text, part, fluents)
            }
            b'!' => self.may_be(part, !truth, turning),
            b'&' => {
                let other = second(self.ends, at);
                let one = self.may_be(part, truth, turning);
                let two = self.may_be(other, truth, turning);
                // both, or either
                if truth { one && two } else { one || two }
            }
            // untrue where there are no values, whatever stands in it
            b'e' => !truth || self.may_be(at + 2, true, turning),
            _ => true,
        }
    }
}
