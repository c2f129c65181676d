// How many steps a job can still take behind each of its step signs, from its text and from the fluents that can still be on or off. A set of lengths is a byte, bit l
// for l steps. The table may have too many, never too few.
ghost use Rattle.std.specs.Prelude.{◌≡◌, true, false, ℕ, ◌<◌, length, get_or, set};
ghost use Rattle.std.specs.Int.Bits.{bit_or};
ghost use Rattle.laws.specs.Bit.{on};
ghost use Rattle.meaning.specs.Limits.{fluent_limit};
ghost use Rattle.meaning.specs.Lengths.{Longer, Reaching};
ghost use Rattle.theory.specs.Subject.{subject, table_masks};
ghost use Rattle.standins.specs.Worth.{Table};
ghost use Rattle.finish.specs.Lengths.{BeforeHere, BeforeTold, FillHere, FollowTold};

use crate::truth::{Job, Turning};
use grammar::ends::second;
use theory::{Asked, STRIDE, log};

// All the lengths that there can be, from 0 to the largest bound.
const ALL: u8 = 127;

// What a clause drops and does not put, for put wins.
fn dropped(put: u32, drop: u32) -> u32
    ensures { (i : ℕ) → i < fluent_limit → on drop i ≡ true → on put i ≡ false → on result i ≡ true }
{
    drop & !put
}

// Whatever a clause of an action can turn, whether it acts or not.
fn turns(actions: usize, masks: &[u32], state: u32) -> Turning
    requires { Table actions masks.now }
    ensures { Reaching actions (table_masks masks.now) state result.ons result.offs }
{
    let mut ons = state;
    let mut offs = !state;
    for a in 0..actions {
        let row = STRIDE * a;
        let one = row + 2;
        let two = row + 6;
        let put = masks[one + 2];
        let drop = masks[one + 3];
        let put2 = masks[two + 2];
        let drop2 = masks[two + 3];
        let gone = dropped(put, drop);
        let gone2 = dropped(put2, drop2);
        ons |= put | put2;
        offs |= gone | gone2;
    }
    Turning { ons, offs }
}

// A step sign is met with these lengths behind it: those before it are one longer.
fn stepped(at: usize, behind: u8, follow: &mut [u8]) -> u8
    requires { at < length follow.old }
    ensures { (follow.new ≡ set follow.old at (bit_or (get_or follow.old at 0) behind)) × Longer behind result }
{
    follow[at] |= behind;
    (behind << 1) & ALL
}

impl<'a> Job<'a> {
    // The lengths from before the walk at a place, where these are those from behind it.
    #[cycle(before_rounds)]
    fn before(self, at: usize, behind: u8, turning: Turning, follow: &mut [u8]) -> u8
        requires { BeforeHere self.text.now self.ends.now follow.old at }
        ensures { BeforeTold self.entry.text.now at turning.ons turning.offs behind follow.old follow.new result }
    {
        let part = at + 1;
        match self.text[at] {
            b'a' | b'b' | b'n' => stepped(at, behind, follow),
            b';' => {
                let other = second(self.ends, at);
                let middle = self.before(other, behind, turning, follow);
                self.before(part, middle, turning, follow)
            }
            b'|' => {
                let other = second(self.ends, at);
                let one = self.before(part, behind, turning, follow);
                let two = self.before(other, behind, turning, follow);
                one | two
            }
            b'*' => self.rounds(at, behind, turning, follow),
            b'?' => {
                if self.may_be(part, true, turning) {
                    behind
                } else {
                    0
                }
            }
            b'p' => self.before(at + 2, behind, turning, follow),
            _ => 0,
        }
    }

    // The same of the star at a place: its rounds are met once with each length, and the table has those that they were met with.
    #[cycle(before_rounds)]
    fn rounds(self, at: usize, behind: u8, turning: Turning, follow: &mut [u8]) -> u8
        requires { BeforeHere self.text.now self.ends.now follow.old at × (get_or self.text.now at 0 ≡ 42) }
        ensures { BeforeTold self.entry.text.now at turning.ons turning.offs behind follow.old follow.new result }
    {
        let part = at + 1;
        let mut seen = follow[at];
        let mut new = behind & !seen;
        while new != 0 {
            seen |= new;
            let more = self.before(part, new, turning, follow);
            new = more & !seen;
        }
        follow[at] = seen;
        seen
    }
}

// The table for what may follow the log.
pub(crate) fn fill(asked: Asked, job: Job, follow: &mut [u8])
    requires { FillHere asked.setting.counts.actions asked.masks.now job.text.now job.ends.now asked.log.now follow.old }
    ensures { FollowTold (subject asked.entry) job.entry.text.now follow.new }
{
    let state = log::state_at(asked, asked.log.len());
    let turning = turns(asked.setting.counts.actions, asked.masks, state);
    job.before(0, 1, turning, follow);
}
