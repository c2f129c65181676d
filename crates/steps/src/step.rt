// The signs with no part: one step of the log, up or down, and the row of a table that a sign names. Knows no other sign.
ghost use Rattle.std.specs.Prelude.{Some, ◌≡◌, ℕ, ◌+◌, ◌≤◌, ◌<◌};
ghost use Rattle.meaning.specs.Limits.{places};
ghost use Rattle.positions.specs.Positions.{holds};
ghost use Rattle.tables.specs.Tables.{row_count, among_holds};
ghost use Rattle.spelling.specs.Scan.{NumberAt};
ghost use Rattle.meaning.specs.Rule.{Variable};
ghost use Rattle.grammar.specs.Letters.{Lettered};
ghost use Rattle.runs.specs.Values.{value_in, SumHere};
ghost use Rattle.runs.specs.Image.{UpTo, Image, Turn, Crossing};
ghost use Rattle.runs.specs.Found.{Numbered, LeafHere, LeafFound};
ghost use Rattle.steps.specs.Values.{listed};

use crate::letters::{Values, value_of};
use positions::PositionSet;
use tables::{ACTION_ROWS, POSSIBLE_ROW, ROWS};
use theory::ACTION_LIMIT;

// The number at a place where one stands. It is read at every visit of a sign, so it is not looked for again whether its bytes are digits.
pub fn named(text: &[u8], at: usize) -> usize
    requires { Numbered text.now at }
    ensures { (n : ℕ) → NumberAt text.now at (Some n) → result ≡ n }
{
    let second = at + 1;
    let tens = usize::from(text[at]);
    let ones = usize::from(text[second]);
    (tens - 48) * 10 + (ones - 48)
}

// The row of a number and a value together, among so many from a first one on; none, where there is no such row.
fn row_of(n: usize, value: usize, rows: &[u64; ROWS], first: usize, many: usize) -> PositionSet
    requires { first + many ≤ row_count }
    ensures { (q : ℕ) → holds result q ≡ among_holds rows.now first many (n + value) q }
{
    if many <= n {
        return PositionSet::EMPTY;
    }
    let left = many - n;
    if left <= value {
        return PositionSet::EMPTY;
    }
    let r = first + n + value;
    PositionSet::of_word(rows[r])
}

// The row that the number at a place names.
pub fn row(text: &[u8], at: usize, rows: &[u64; ROWS], first: usize, many: usize) -> PositionSet
    requires { Numbered text.now at × (first + many ≤ row_count) }
    ensures { (n q : ℕ) → NumberAt text.now at (Some n) → holds result q ≡ among_holds rows.now first many n q }
{
    let n = named(text, at);
    row_of(n, 0, rows, first, many)
}

// The row that the number at a place and the variable behind it name.
pub fn sum_row(
    text: &[u8],
    at: usize,
    rows: &[u64; ROWS],
    vars: &Values,
    first: usize,
    many: usize,
) -> PositionSet
    requires { SumHere text.now at × (first + many ≤ row_count) }
    ensures { (n q : ℕ) (v : Variable) → NumberAt text.now at (Some n) → Lettered text.now (at + 2) v → holds result q ≡ among_holds rows.now first many (n + value_in (listed vars.now) v) q }
{
    let n = named(text, at);
    let letter = at + 2;
    let value = value_of(text, letter, vars);
    row_of(n, value, rows, first, many)
}

// One step from each position of a set, over steps that may be crossed; backwards, to each position whose step leads into the set.
fn cross(from: PositionSet, over: PositionSet, now: usize, back: bool) -> PositionSet
    ensures { now < places → UpTo now (holds from) → Image (Turn back (Crossing (holds over))) now (holds from) (holds result) }
{
    if back {
        let before = from.down();
        before.meet(over)
    } else {
        let taken = from.meet(over);
        let after = taken.up();
        let most = PositionSet::up_to(now);
        after.meet(most)
    }
}

// The walk at a place, where it is `aNN`, `rNN`, `n`, `u`, `bNNv` or `sNNv`.
pub fn leaf(
    text: &[u8],
    at: usize,
    from: PositionSet,
    now: usize,
    back: bool,
    rows: &[u64; ROWS],
    vars: &Values,
) -> PositionSet
    requires { LeafHere text.now at }
    ensures { LeafFound text.now at back rows.now (listed vars.now) now (holds from) (holds result) }
{
    let sign = text[at];
    let name = at + 1;
    let possible = rows[POSSIBLE_ROW];
    match sign {
        b'a' => {
            let over = row(text, name, rows, ACTION_ROWS, ACTION_LIMIT);
            cross(from, over, now, back)
        }
        b'r' => {
            let over = row(text, name, rows, ACTION_ROWS, ACTION_LIMIT);
            cross(from, over, now, !back)
        }
        // one of the theory's actions: over the steps that were possible
        b'n' => {
            let ahead = PositionSet::of_word(possible);
            cross(from, ahead, now, back)
        }
        b'b' => {
            let over = sum_row(text, name, rows, vars, ACTION_ROWS, ACTION_LIMIT);
            cross(from, over, now, back)
        }
        b's' => {
            let over = sum_row(text, name, rows, vars, ACTION_ROWS, ACTION_LIMIT);
            cross(from, over, now, !back)
        }
        _ => {
            let behind = PositionSet::of_word(possible);
            cross(from, behind, now, !back)
        }
    }
}
