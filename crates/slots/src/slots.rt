// What a run keeps: a set of positions for each place of the text. A star's slot has the ground that it has seen in this run, a `?`'s the positions where its
// test is true, and the slot behind it those where it is not. A slot that is not lent keeps nothing, and only makes the answer slower.
ghost use Rattle.std.specs.Prelude.{◌≡◌, ℕ, ◌≤◌, length};
ghost use Rattle.positions.specs.Positions.{holds};
ghost use Rattle.runs.specs.Slots.{slot, Stored, Cleared, Forgotten};

use positions::PositionSet;

// What the slot of a place has.
pub fn kept(slots: &[u64], i: usize) -> PositionSet
    ensures { (q : ℕ) → holds result q ≡ slot slots.now i q }
{
    if i < slots.len() {
        PositionSet::of_word(slots[i])
    } else {
        PositionSet::EMPTY
    }
}

// The slot of a place has this set from now on.
pub fn keep(slots: &mut [u64], i: usize, set: PositionSet)
    ensures { Stored slots.old i (holds set) slots.new }
{
    let word = set.word();
    if i < slots.len() {
        slots[i] = word;
    }
}

// A new run of the walk between two places: what its stars have seen is forgotten.
pub fn clear(text: &[u8], slots: &mut [u64], from: usize, to: usize)
    requires { (from ≤ to) × (to ≤ length text.now) }
    ensures cleared { Cleared text.now slots.old from to slots.new }
    ensures long { length slots.new ≡ length slots.old }
{
    for i in from..to.min(slots.len()) {
        if text[i] == b'*' {
            slots[i] = 0;
        }
    }
}

// A new value of a variable: what the part between two places has kept is forgotten, what its tests have told too.
pub fn forget(slots: &mut [u64], from: usize, to: usize)
    requires { from ≤ to }
    ensures forgotten { Forgotten slots.old from to slots.new }
    ensures long { length slots.new ≡ length slots.old }
{
    let end = to.min(slots.len());
    if from < end {
        slots[from..end].fill(0);
    }
}
