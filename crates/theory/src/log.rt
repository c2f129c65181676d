// The state after the first steps of a log.
ghost use Rattle.std.specs.Prelude.{◌≡◌, ◌≤◌, length};
ghost use Rattle.meaning.specs.Theory.{state_before};
ghost use Rattle.theory.specs.Subject.{Readable, subject, world_of};

use crate::{Asked, step};

// Each step applies its effects, possible or not.
pub fn state_at(asked: Asked, p: usize) -> u32
    requires { (p ≤ length asked.log.now) × Readable asked.masks.now asked.log.now }
    ensures { result ≡ state_before (world_of (subject asked.entry)) p }
{
    let mut state = asked.setting.start;
    for a in &asked.log[..p] {
        state = step::act(asked.masks, usize::from(*a), state);
    }
    state
}
