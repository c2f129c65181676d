// How a `?` goes over a set of positions: one by one, where each is its own now, or all together, where they have the walk's.
ghost use Rattle.std.specs.Prelude.{◌≡◌, ◌≤◌, length};
ghost use Rattle.positions.specs.Positions.{holds, Empty};
ghost use Rattle.runs.specs.Readings.{Together, NextTurn, Renewed};
ghost use Rattle.steps.specs.Values.{listed};

use crate::STEP;
use crate::slots::forget;
use positions::PositionSet;
use steps::letters::Values;

// Positions that have one now, and that now.
#[derive(Clone, Copy)]
pub struct Turn {
    pub own: usize,
    pub these: PositionSet,
}

// Those of a set that are asked next.
pub fn next_turn(left: PositionSet, now: usize, vars: &Values) -> Turn
    requires { Empty left → ⊥ }
    ensures together { Together (holds left) now (listed vars.now) result.own (holds result.these) }
    ensures which { NextTurn (holds left) now (listed vars.now) result.own (holds result.these) }
{
    if vars.own == STEP {
        let own = left.earliest();
        let these = PositionSet::at(own);
        Turn { own, these }
    } else {
        Turn {
            own: now,
            these: left,
        }
    }
}

// Before the next now: in a job, whose own tests are read otherwise than those inside them, what these have told is forgotten.
pub fn renew(slots: &mut [u64], from: usize, to: usize, vars: &Values)
    requires { from ≤ to }
    ensures renewed { Renewed (listed vars.now) slots.old from to slots.new }
    ensures long { length slots.new ≡ length slots.old }
{
    if vars.own != vars.inner {
        forget(slots, from, to);
    }
}
