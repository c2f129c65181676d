// One action in one state: is it possible, and what is the state after it. A state and a mask are a word each, bit i for fluent i.
ghost use Rattle.std.specs.Prelude.{◌≡◌, ◌↔◌, true, ◌+◌, ◌*◌, ◌≤◌, length};
ghost use Rattle.meaning.specs.Theory.{Possible, stride, after};
ghost use Rattle.theory.specs.Subject.{clause_at, table_masks};
ghost use Rattle.theory.specs.Step.{Met, Effected};

use crate::STRIDE;

// Every bit of the one mask is on in the state, and every bit of the other off.
fn met(ons: u32, offs: u32, state: u32) -> bool
    ensures { (result ≡ true) ↔ Met ons offs state }
{
    ons & state == ons && offs & state == 0
}

// Action a of the table is possible in the state.
pub fn able(masks: &[u32], a: usize, state: u32) -> bool
    requires { stride * a + stride ≤ length masks.now }
    ensures { (result ≡ true) ↔ Possible (table_masks masks.now a) state }
{
    let row = STRIDE * a;
    let need = masks[row];
    let ban = masks[row + 1];
    met(need, ban, state)
}

// What a clause does in a state.
#[derive(Clone, Copy)]
struct Effect {
    put: u32,
    drop: u32,
}

// The clause from this place of the table on: what it puts and drops if it acts, and else nothing.
fn clause(masks: &[u32], at: usize, state: u32) -> Effect
    requires { at + 4 ≤ length masks.now }
    ensures { Effected (clause_at masks.now at) state result.put result.drop }
{
    let when = masks[at];
    let unless = masks[at + 1];
    let put = masks[at + 2];
    let drop = masks[at + 3];
    if met(when, unless, state) {
        Effect { put, drop }
    } else {
        Effect { put: 0, drop: 0 }
    }
}

// The state after action a of the table, possible or not: what an acting clause puts is on, and of the rest what was on and no acting clause drops.
pub fn act(masks: &[u32], a: usize, state: u32) -> u32
    requires { stride * a + stride ≤ length masks.now }
    ensures { result ≡ after (table_masks masks.now a) state }
{
    let row = STRIDE * a;
    let one = clause(masks, row + 2, state);
    let two = clause(masks, row + 6, state);
    let puts = one.put | two.put;
    let drops = one.drop | two.drop;
    let kept = state & !drops;
    puts | kept
}
