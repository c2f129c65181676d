// A rule from the text's first place on: one run, or for a test its runs. A rule that keeps something in a run is lent a slot for each place; any other gets
// none, and pays for none.
// Text, table and rows come one by one, from callers that have just made them; the struct that the evaluator goes by is made of them here, where they are known to belong together.
ghost use Rattle.std.specs.Prelude.{false, ◌+◌, ◌≤◌};
ghost use Rattle.meaning.specs.Limits.{text_limit};
ghost use Rattle.meaning.specs.Lengths.{allows};
ghost use Rattle.positions.specs.Positions.{holds};
ghost use Rattle.runs.specs.Values.{unbound};
ghost use Rattle.runs.specs.Found.{WalkHere, TestHere, WalkFound, TestFound, AskFound};

use crate::asks::Asker;
use crate::evaluator::Evaluator;
use crate::values::end_of;
use grammar::ends::ENDS_ROOM;
use positions::PositionSet;
use slots::STEP;
use slots::values::none_bound;
use tables::ROWS;

// Whether slots are worth lending: a star is inside a star, and not right behind it, or a `?` is inside a star or inside the test of a `?`. Otherwise no sign is met twice with the same ground.
// An answer is right with slots and without.
fn keeps(text: &[u8], ends: &[u8; ENDS_ROOM]) -> bool {
    let mut star_end = 0;
    let mut ask_end = 0;
    let mut behind_star = 0;
    for (i, sign) in text.iter().enumerate() {
        if *sign == b'*' {
            if star_end <= i {
                star_end = end_of(ends, i);
            } else if behind_star != i {
                return true;
            }
            behind_star = i + 1;
        } else if *sign == b'?' {
            if i < star_end {
                return true;
            }
            if i < ask_end {
                return true;
            }
            ask_end = end_of(ends, i);
        }
    }
    false
}

// The positions that the walk leads to from those of a set.
pub fn walk(
    text: &[u8],
    ends: &[u8; ENDS_ROOM],
    domain: usize,
    own: usize,
    inner: usize,
    from: PositionSet,
    now: usize,
    rows: &[u64; ROWS],
) -> PositionSet
    requires { WalkHere text.now ends.now 0 }
    ensures { WalkFound text.now 0 false rows.now (unbound domain own inner) now (holds from) (holds result) }
{
    if keeps(text, ends) {
        walk_with::<ENDS_ROOM>(text, ends, domain, own, inner, from, now, rows)
    } else {
        walk_with::<0>(text, ends, domain, own, inner, from, now, rows)
    }
}

// The same with so many slots.
fn walk_with<const SLOTS: usize>(
    text: &[u8],
    ends: &[u8; ENDS_ROOM],
    domain: usize,
    own: usize,
    inner: usize,
    from: PositionSet,
    now: usize,
    rows: &[u64; ROWS],
) -> PositionSet
    requires { WalkHere text.now ends.now 0 × (SLOTS ≤ text_limit + 1) }
    ensures { WalkFound text.now 0 false rows.now (unbound domain own inner) now (holds from) (holds result) }
{
    let vars = none_bound(domain, own, inner);
    let mut slots = [0u64; SLOTS];
    let evaluator = Evaluator { text, ends, rows };
    evaluator.walk(0, from, now, false, &vars, &mut slots)
}

// The positions of a set where the test is true.
pub fn test(
    text: &[u8],
    ends: &[u8; ENDS_ROOM],
    domain: usize,
    reading: usize,
    among: PositionSet,
    now: usize,
    rows: &[u64; ROWS],
) -> PositionSet
    requires { TestHere text.now ends.now 0 }
    ensures { TestFound text.now 0 rows.now (unbound domain reading reading) now (holds among) (holds result) }
{
    if keeps(text, ends) {
        test_with::<ENDS_ROOM>(text, ends, domain, reading, among, now, rows)
    } else {
        test_with::<0>(text, ends, domain, reading, among, now, rows)
    }
}

// The same with so many slots.
fn test_with<const SLOTS: usize>(
    text: &[u8],
    ends: &[u8; ENDS_ROOM],
    domain: usize,
    reading: usize,
    among: PositionSet,
    now: usize,
    rows: &[u64; ROWS],
) -> PositionSet
    requires { TestHere text.now ends.now 0 × (SLOTS ≤ text_limit + 1) }
    ensures { TestFound text.now 0 rows.now (unbound domain reading reading) now (holds among) (holds result) }
{
    let vars = none_bound(domain, reading, reading);
    let mut slots = [0u64; SLOTS];
    let evaluator = Evaluator { text, ends, rows };
    evaluator.test(0, among, now, &vars, &mut slots)
}

// The actions that the walk asks for at the end, from some position of a set, by the step signs that may have so many steps behind them.
pub fn asks(
    text: &[u8],
    ends: &[u8; ENDS_ROOM],
    domain: usize,
    reading: usize,
    from: PositionSet,
    end: usize,
    rows: &[u64; ROWS],
    follow: &[u8; ENDS_ROOM],
    left: usize,
) -> u64
    requires { WalkHere text.now ends.now 0 }
    ensures { AskFound (allows follow.now left) text.now 0 rows.now (unbound domain 0 reading) end (holds from) result }
{
    if keeps(text, ends) {
        asks_with::<ENDS_ROOM>(text, ends, domain, reading, from, end, rows, follow, left)
    } else {
        asks_with::<0>(text, ends, domain, reading, from, end, rows, follow, left)
    }
}

// The same with so many slots.
fn asks_with<'a, const SLOTS: usize>(
    text: &'a [u8],
    ends: &'a [u8; ENDS_ROOM],
    domain: usize,
    reading: usize,
    from: PositionSet,
    end: usize,
    rows: &'a [u64; ROWS],
    follow: &'a [u8; ENDS_ROOM],
    left: usize,
) -> u64
    requires { WalkHere text.now ends.now 0 × (SLOTS ≤ text_limit + 1) }
    ensures { AskFound (allows follow.now left) text.now 0 rows.now (unbound domain 0 reading) end (holds from) result }
{
    let vars = none_bound(domain, STEP, reading);
    let mut slots = [0u64; SLOTS];
    let evaluator = Evaluator { text, ends, rows };
    let asker = Asker {
        evaluator,
        end,
        follow,
        left,
    };
    let pass = asker.onward(0, from, &vars, &mut slots);
    pass.asked
}
