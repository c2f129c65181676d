#![tactic(auto)]
// The log, transposed: a row of positions for each action, for each fluent, and one for the steps that were possible. Whoever asks of many positions at
// once asks these. A row is a word, in which bit p is position p.
ghost use Rattle.std.specs.Prelude.{◌≡◌, ◌&&◌, ℕ, ◌≤◌, ◌<◌, leb, length};
ghost use Rattle.laws.specs.Bit.{on};
ghost use Rattle.meaning.specs.Limits.{action_limit, log_limit, places};
ghost use Rattle.theory.specs.Subject.{Readable, subject, world_of};
ghost use Rattle.tables.specs.Tables.{row_count, Describes, Noted, Reversed, Toggled};

use positions::PositionSet;
use theory::{ACTION_LIMIT, Asked, FLUENT_LIMIT, step};

// The rows in their order: the actions, the fluents, and the steps that were possible.
pub const ACTION_ROWS: usize = 0;

pub const FLUENT_ROWS: usize = ACTION_ROWS + ACTION_LIMIT;

pub const POSSIBLE_ROW: usize = FLUENT_ROWS + FLUENT_LIMIT;

// so many in an array, and no `Vec`: the library has fixed memory
pub const ROWS: usize = POSSIBLE_ROW + 1;

// The step at position p is action a: if it was possible, it is noted for the action and among the possible ones.
fn note(rows: &mut [u64; ROWS], a: usize, p: usize, able: bool)
    requires { (length rows.old ≡ row_count) × (a < action_limit) × (p < places) }
    ensures { Noted rows.old rows.new a p able }
{
    if able {
        let bit = 1u64 << p;
        rows[ACTION_ROWS + a] |= bit;
        rows[POSSIBLE_ROW] |= bit;
    }
}

// The positions from p up to the end of a log of n steps.
fn onward(p: usize, n: usize) -> u64
    requires { (p ≤ n) × (n < places) }
    ensures { (q : ℕ) → on result q ≡ (leb p q && leb q n) }
{
    let beyond = PositionSet::LOG_LIMIT - n;
    let most = !0u64 >> beyond;
    most >> p << p
}

// Each fluent that changed is the other way at these positions: a turn for each.
#[tactic(auto, using(laws::proofs::First::lowest_within))]
fn turn(rows: &mut [u64; ROWS], changed: u32, places: u64)
    requires { length rows.old ≡ row_count }
    ensures { Reversed rows.old rows.new changed places }
{
    let mut rest = changed;
    // over the members of a set, of which there is no iterator: it counts no index
    while rest != 0 {
        let i = rest.trailing_zeros() as usize;
        rows[FLUENT_ROWS + i] ^= places;
        rest ^= 1u32 << i;
    }
}

// All rows, in one pass over the log: a state stands from its position on, until one after it turns what it changes. Whatever the rows held is gone.
pub fn transpose(asked: Asked, rows: &mut [u64; ROWS])
    requires { Readable asked.masks.now asked.log.now }
    ensures { Describes (world_of (subject asked.entry)) rows.new }
{
    *rows = [0u64; ROWS];
    let start = asked.setting.start;
    let n = asked.log.len();
    let all = onward(0, n);
    turn(rows, start, all);
    let mut state = start;
    for (p, a) in asked.log.iter().enumerate() {
        let a = usize::from(*a);
        let able = step::able(asked.masks, a, state);
        note(rows, a, p, able);
        let next = step::act(asked.masks, a, state);
        let rest = onward(p + 1, n);
        let changed = state ^ next;
        turn(rows, changed, rest);
        state = next;
    }
}

// A possible step at the log's end, action a at position p with this state behind it: put on the rows or, where it stands there, taken off again. Who
// tries one log after another keeps its rows so, instead of making them afresh.
pub fn toggle(rows: &mut [u64; ROWS], a: usize, p: usize, behind: u32)
    requires { (length rows.old ≡ row_count) × (a < action_limit) × (p < log_limit) }
    ensures { Toggled rows.old rows.new a p behind }
{
    let bit = 1u64 << p;
    rows[ACTION_ROWS + a] ^= bit;
    rows[POSSIBLE_ROW] ^= bit;
    let there = 1u64 << (p + 1);
    turn(rows, behind, there);
}
