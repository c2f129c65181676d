// The evaluator: a walk function and a test function that call one another over the text, sets of positions in and out. Knows the text, where each rule
// of it ends, the tables of the log, what the variables stand for, and what the run keeps in its slots.
ghost use Rattle.std.specs.Prelude.{◌≡◌, cond, ◌+◌, ◌<◌, length, get_or};
ghost use Rattle.meaning.specs.Limits.{text_limit};
ghost use Rattle.positions.specs.Positions.{holds};
ghost use Rattle.runs.specs.Found.{WalkHere, TestHere};
ghost use Rattle.runs.specs.Run.{WalkKept, TestKept, HereKept};
ghost use Rattle.runs.specs.Slots.{StarsTo};
ghost use Rattle.steps.specs.Values.{listed};

use crate::values::turns;
use grammar::ends::{ENDS_ROOM, second};
use positions::PositionSet;
use slots::readings::{Turn, next_turn, renew};
use slots::slots::{clear, forget, keep, kept};
use slots::values::{inside, rebound};
use steps::letters::{Values, place_of};
use steps::step::{leaf, row, sum_row};
use tables::{FLUENT_ROWS, ROWS};
use theory::FLUENT_LIMIT;

// What every call goes by: a text, where each rule of it ends, and the rows of the log.
#[derive(Clone, Copy)]
pub(crate) struct Evaluator<'a> {
    pub text: &'a [u8],
    pub ends: &'a [u8; ENDS_ROOM],
    pub rows: &'a [u64; ROWS],
    // the table has a byte for each place, and for the end
    pub ghost room: { length ends.now ≡ text_limit + 1 },
}

// Of two parts, the one that is walked first: under a converse the second.
fn turned(back: bool, part: usize, other: usize) -> usize
    ensures { result ≡ cond back other part }
{
    if back { other } else { part }
}

// The last star of a run of them: a star of a star is one star.
pub(crate) fn last_star(text: &[u8], at: usize) -> usize
    requires { at < length text.now }
    ensures { StarsTo text.now at result }
{
    for next in at + 1..text.len() {
        if text[next] != b'*' {
            return next - 1;
        }
    }
    text.len() - 1
}

impl<'a> Evaluator<'a> {
    // The positions that the walk at a place leads to from those of a set, and perhaps from those that it was given before in this run; with `back`, its
    // converse.
    #[cycle(here_some_test_some_walk_star_test_walk)]
    pub(crate) fn walk(
        &self,
        at: usize,
        from: PositionSet,
        now: usize,
        back: bool,
        vars: &Values,
        slots: &mut [u64],
    ) -> PositionSet
        requires { WalkHere self.now.text.now self.now.ends.now at }
        ensures { WalkKept self.now.text.now at back self.now.rows.now (listed vars.now) now slots.old slots.new (holds from) (holds result) }
    {
        let sign = self.text[at];
        let part = at + 1;
        match sign {
            b';' => {
                let other = second(self.ends, at);
                let first = turned(back, part, other);
                let then = turned(!back, part, other);
                let middle = self.walk(first, from, now, back, vars, slots);
                self.walk(then, middle, now, back, vars, slots)
            }
            b'|' => {
                let other = second(self.ends, at);
                let one = self.walk(part, from, now, back, vars, slots);
                let two = self.walk(other, from, now, back, vars, slots);
                one.join(two)
            }
            b'*' => {
                let last = last_star(self.text, at);
                self.star(last, from, now, back, vars, slots)
            }
            b'?' => self.here(at, from, now, vars, slots),
            b'-' => self.walk(part, from, now, !back, vars, slots),
            b'p' => self.some_walk(at, from, now, back, vars, slots),
            _ => leaf(self.text, at, from, now, back, self.rows, vars),
        }
    }

    // The same of the star at a place: on from the ground that it has not seen in this run.
    #[cycle(here_some_test_some_walk_star_test_walk)]
    fn star(
        &self,
        at: usize,
        from: PositionSet,
        now: usize,
        back: bool,
        vars: &Values,
        slots: &mut [u64],
    ) -> PositionSet
        requires { WalkHere self.now.text.now self.now.ends.now at × (get_or self.now.text.now at 0 ≡ 42) }
        ensures { WalkKept self.now.text.now at back self.now.rows.now (listed vars.now) now slots.old slots.new (holds from) (holds result) }
    {
        let part = at + 1;
        let mut seen = kept(slots, at);
        let mut new = from.without(seen);
        while !new.is_empty() {
            seen = seen.join(new);
            let more = self.walk(part, new, now, back, vars, slots);
            new = more.without(seen);
        }
        keep(slots, at, seen);
        seen
    }

    // The same of the `p` at a place: for some value of its variable, in a run of its own for each.
    #[cycle(here_some_test_some_walk_star_test_walk)]
    fn some_walk(
        &self,
        at: usize,
        from: PositionSet,
        now: usize,
        back: bool,
        vars: &Values,
        slots: &mut [u64],
    ) -> PositionSet
        requires { WalkHere self.now.text.now self.now.ends.now at × (get_or self.now.text.now at 0 ≡ 112) }
        ensures { WalkKept self.now.text.now at back self.now.rows.now (listed vars.now) now slots.old slots.new (holds from) (holds result) }
    {
        let mut found = PositionSet::EMPTY;
        if from.is_empty() {
            return found;
        }
        let letter = at + 1;
        let part = at + 2;
        let end = second(self.ends, letter);
        let place = place_of(self.text, letter);
        let many = turns(self.text, self.ends, at, end, vars);
        forget(slots, part, end);
        for value in 0..many {
            let inner = rebound(vars, place, value);
            let there = self.walk(part, from, now, back, &inner, slots);
            forget(slots, part, end);
            found = found.join(there);
        }
        found
    }

    // The positions of a set where the test of the `?` at a place is true. The test is asked once at a position: where each is its own now one by one, and else all together.
    #[cycle(here_some_test_some_walk_star_test_walk)]
    fn here(
        &self,
        at: usize,
        among: PositionSet,
        now: usize,
        vars: &Values,
        slots: &mut [u64],
    ) -> PositionSet
        requires { WalkHere self.now.text.now self.now.ends.now at × (get_or self.now.text.now at 0 ≡ 63) }
        ensures { HereKept self.now.text.now at self.now.rows.now (listed vars.now) now slots.old slots.new (holds among) (holds result) }
    {
        let part = at + 1;
        let end = second(self.ends, at);
        let mut held = kept(slots, at);
        let denied = kept(slots, part);
        let asked = held.join(denied);
        let mut left = among.without(asked);
        while !left.is_empty() {
            let Turn { own, these } = next_turn(left, now, vars);
            let inner = inside(vars);
            renew(slots, part, end, vars);
            let there = self.test(part, these, own, &inner, slots);
            renew(slots, part, end, vars);
            held = held.join(there);
            left = left.without(these);
        }
        let all = asked.join(among);
        let rest = all.without(held);
        keep(slots, at, held);
        keep(slots, part, rest);
        among.meet(held)
    }

    // The positions of a set where the test at a place is true.
    #[cycle(here_some_test_some_walk_star_test_walk)]
    pub(crate) fn test(
        &self,
        at: usize,
        among: PositionSet,
        now: usize,
        vars: &Values,
        slots: &mut [u64],
    ) -> PositionSet
        requires { TestHere self.now.text.now self.now.ends.now at }
        ensures { TestKept self.now.text.now at self.now.rows.now (listed vars.now) now slots.old slots.new (holds among) (holds result) }
    {
        let sign = self.text[at];
        let part = at + 1;
        match sign {
            b'1' => among,
            b'f' => {
                let shown = row(self.text, part, self.rows, FLUENT_ROWS, FLUENT_LIMIT);
                among.meet(shown)
            }
            b'!' => {
                let there = self.test(part, among, now, vars, slots);
                among.without(there)
            }
            b'&' => {
                let other = second(self.ends, at);
                let one = self.test(part, among, now, vars, slots);
                self.test(other, one, now, vars, slots)
            }
            b'g' => {
                let shown = sum_row(self.text, part, self.rows, vars, FLUENT_ROWS, FLUENT_LIMIT);
                among.meet(shown)
            }
            b'e' => self.some_test(at, among, now, vars, slots),
            // `<`: from every position where the test is true, the walk backwards, in a run of its own
            _ => {
                let other = second(self.ends, at);
                let all = PositionSet::up_to(now);
                let there = self.test(other, all, now, vars, slots);
                clear(self.text, slots, part, other);
                let starts = self.walk(part, there, now, true, vars, slots);
                among.meet(starts)
            }
        }
    }

    // The same of the `e` at a place: for some value of its variable, over the positions where no value before it makes the test true.
    #[cycle(here_some_test_some_walk_star_test_walk)]
    fn some_test(
        &self,
        at: usize,
        among: PositionSet,
        now: usize,
        vars: &Values,
        slots: &mut [u64],
    ) -> PositionSet
        requires { TestHere self.now.text.now self.now.ends.now at × (get_or self.now.text.now at 0 ≡ 101) }
        ensures { TestKept self.now.text.now at self.now.rows.now (listed vars.now) now slots.old slots.new (holds among) (holds result) }
    {
        let letter = at + 1;
        let part = at + 2;
        let end = second(self.ends, letter);
        let place = place_of(self.text, letter);
        let many = turns(self.text, self.ends, at, end, vars);
        let mut found = PositionSet::EMPTY;
        let mut left = among;
        forget(slots, part, end);
        for next in 0..many {
            if left.is_empty() {
                return found;
            }
            let inner = rebound(vars, place, next);
            let there = self.test(part, left, now, &inner, slots);
            forget(slots, part, end);
            found = found.join(there);
            left = left.without(there);
        }
        found
    }
}
