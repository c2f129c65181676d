// One pass over a job: where it leads, and the actions that its signs wait for at the log's end, by the evaluator's own way over the text. A table says of each step sign
// how many steps may be left behind it: with any other number left it does not ask.
ghost use Rattle.std.specs.Prelude.{◌≡◌, cond, false, ◌&&◌, ℕ, ◌+◌, ◌<◌, eqb, get_or};
ghost use Rattle.laws.specs.Bit.{on};
ghost use Rattle.meaning.specs.Limits.{action_limit};
ghost use Rattle.meaning.specs.Lengths.{allows};
ghost use Rattle.positions.specs.Positions.{holds};
ghost use Rattle.runs.specs.Found.{WalkHere, LeafHere, LeafFound};
ghost use Rattle.runs.specs.Run.{AskKept};
ghost use Rattle.steps.specs.Values.{listed};

use crate::evaluator::{Evaluator, last_star};
use crate::values::turns;
use grammar::ends::{ENDS_ROOM, second};
use positions::PositionSet;
use slots::slots::{forget, keep, kept};
use slots::values::rebound;
use steps::letters::{Values, place_of, value_of};
use steps::step;
use theory::ACTION_LIMIT;

// What a pass over a walk finds: the positions that it leads to, and the actions that it asks for, bit a for action a.
#[derive(Clone, Copy)]
pub struct Pass {
    pub reached: PositionSet,
    pub asked: u64,
}

// What a pass goes by: the evaluator, the log's end, and of each step sign how many steps may be left behind it, with so many left behind what is asked.
#[derive(Clone, Copy)]
pub(crate) struct Asker<'a> {
    pub evaluator: Evaluator<'a>,
    pub end: usize,
    pub follow: &'a [u8; ENDS_ROOM],
    pub left: usize,
}

// The action of a number and a value together, alone; none, where that is past the last.
fn one(a: usize, value: usize) -> u64
    ensures { (i : ℕ) → i < action_limit → on result i ≡ eqb i (a + value) }
{
    if ACTION_LIMIT <= a {
        return 0;
    }
    let left = ACTION_LIMIT - a;
    if left <= value {
        return 0;
    }
    let sum = a + value;
    1 << sum
}

// The sign at a place may ask where so many steps are left behind it: it is one of its lengths, bit l for l steps.
fn allowed(follow: &[u8], at: usize, left: usize) -> bool
    ensures { result ≡ allows follow.now left at }
{
    if at < follow.len() {
        let lengths = usize::from(follow[at]);
        if left < 8 {
            let from_left = lengths >> left;
            from_left % 2 == 1
        } else {
            false
        }
    } else {
        false
    }
}

// A step that waits for some of these actions does so if it may ask and the set holds the end.
fn waits(from: PositionSet, end: usize, may: bool, these: u64) -> u64
    ensures { result ≡ cond (may && holds from end) these 0 }
{
    if may {
        if from.has(end) { these } else { 0 }
    } else {
        0
    }
}

impl<'a> Asker<'a> {
    // A step sign that waits for these actions, if it may ask.
    fn step(&self, at: usize, from: PositionSet, vars: &Values, these: u64) -> Pass
        requires { LeafHere self.now.evaluator.text.now at }
        ensures reached { LeafFound self.now.evaluator.text.now at false self.now.evaluator.rows.now (listed vars.now) self.now.end (holds from) (holds result.reached) }
        ensures asked { result.asked ≡ cond (allows self.now.follow.now self.now.left at && holds from self.now.end) these 0 }
    {
        let follow = self.follow;
        let may = allowed(follow, at, self.left);
        let asked = waits(from, self.end, may, these);
        let Evaluator { text, rows, .. } = self.evaluator;
        let reached = step::leaf(text, at, from, self.end, false, rows, vars);
        Pass { reached, asked }
    }

    // One pass over the walk at a place from the positions of a set, and perhaps from those that it was given before in this run.
    #[cycle(onward_rounds_some_onward)]
    pub(crate) fn onward(
        &self,
        at: usize,
        from: PositionSet,
        vars: &Values,
        slots: &mut [u64],
    ) -> Pass
        requires { WalkHere self.now.evaluator.text.now self.now.evaluator.ends.now at }
        ensures { AskKept (allows self.now.follow.now self.now.left) self.now.evaluator.text.now at self.now.evaluator.rows.now (listed vars.now) self.now.end slots.old slots.new (holds from) (holds result.reached) result.asked }
    {
        let Evaluator { text, ends, .. } = self.evaluator;
        let sign = text[at];
        let part = at + 1;
        match sign {
            b'a' => {
                let a = step::named(text, part);
                let these = one(a, 0);
                self.step(at, from, vars, these)
            }
            b'n' => self.step(at, from, vars, !0),
            b';' => {
                let next = second(ends, at);
                let first = self.onward(part, from, vars, slots);
                let then = self.onward(next, first.reached, vars, slots);
                Pass {
                    reached: then.reached,
                    asked: first.asked | then.asked,
                }
            }
            b'|' => {
                let next = second(ends, at);
                let first = self.onward(part, from, vars, slots);
                let or = self.onward(next, from, vars, slots);
                Pass {
                    reached: first.reached.join(or.reached),
                    asked: first.asked | or.asked,
                }
            }
            b'*' => {
                let last = last_star(text, at);
                self.rounds(last, from, vars, slots)
            }
            b'b' => {
                let a = step::named(text, part);
                let letter = at + 3;
                let value = value_of(text, letter, vars);
                let these = one(a, value);
                self.step(at, from, vars, these)
            }
            b'p' => self.some_onward(at, from, vars, slots),
            // a test waits for nothing, and no other sign stands in a job
            _ => {
                let reached = self.evaluator.walk(at, from, self.end, false, vars, slots);
                Pass { reached, asked: 0 }
            }
        }
    }

    // The same of the star at a place: on from the ground that it has not seen in this run.
    #[cycle(onward_rounds_some_onward)]
    fn rounds(&self, at: usize, from: PositionSet, vars: &Values, slots: &mut [u64]) -> Pass
        requires { WalkHere self.now.evaluator.text.now self.now.evaluator.ends.now at × (get_or self.now.evaluator.text.now at 0 ≡ 42) }
        ensures { AskKept (allows self.now.follow.now self.now.left) self.now.evaluator.text.now at self.now.evaluator.rows.now (listed vars.now) self.now.end slots.old slots.new (holds from) (holds result.reached) result.asked }
    {
        let part = at + 1;
        let mut asked = 0;
        let mut seen = kept(slots, at);
        let mut new = from.without(seen);
        while !new.is_empty() {
            seen = seen.join(new);
            let round = self.onward(part, new, vars, slots);
            asked |= round.asked;
            new = round.reached.without(seen);
        }
        keep(slots, at, seen);
        Pass {
            reached: seen,
            asked,
        }
    }

    // The same of the `p` at a place: for some value of its variable, in a run of its own for each.
    #[cycle(onward_rounds_some_onward)]
    fn some_onward(&self, at: usize, from: PositionSet, vars: &Values, slots: &mut [u64]) -> Pass
        requires { WalkHere self.now.evaluator.text.now self.now.evaluator.ends.now at × (get_or self.now.evaluator.text.now at 0 ≡ 112) }
        ensures { AskKept (allows self.now.follow.now self.now.left) self.now.evaluator.text.now at self.now.evaluator.rows.now (listed vars.now) self.now.end slots.old slots.new (holds from) (holds result.reached) result.asked }
    {
        let mut reached = PositionSet::EMPTY;
        let mut asked = 0;
        if from.is_empty() {
            return Pass { reached, asked };
        }
        let Evaluator { text, ends, .. } = self.evaluator;
        let letter = at + 1;
        let part = at + 2;
        let last = second(ends, letter);
        let place = place_of(text, letter);
        let many = turns(text, ends, at, last, vars);
        forget(slots, part, last);
        for value in 0..many {
            let own = rebound(vars, place, value);
            let pass = self.onward(part, from, &own, slots);
            forget(slots, part, last);
            reached = reached.join(pass.reached);
            asked |= pass.asked;
        }
        Pass { reached, asked }
    }
}
