#![tactic(auto)]
// A set of positions of a log, by value. A caller knows which positions a set holds, and the set as a number (`word`), and nothing else of it.
ghost use Rattle.std.specs.Prelude.{◌≡◌, ◌↔◌, true, not, ◌&&◌, ◌||◌, ℕ, ◌+◌, ◌-◌, eqb, leb, ltb};
ghost use Rattle.meaning.specs.Limits.{places};
ghost use Rattle.meaning.specs.Reach.{count_of, earliest_of, SetWord};
ghost use Rattle.positions.specs.Positions.{holds, Empty, Inside};

// Bit q of the word is position q.
#[derive(Clone, Copy)]
pub struct PositionSet {
    word: u64,
}

impl PositionSet {
    // The longest log, the places that it has, and the deepest rule.
    pub const LOG_LIMIT: usize = 63;

    pub const PLACES: usize = Self::LOG_LIMIT + 1;

    pub const DEPTH_LIMIT: usize = 24;

    // The set that holds nothing.
    pub const EMPTY: PositionSet = PositionSet { word: 0 };

    // The set of one position; of none, where p is past the last place.
    pub fn at(p: usize) -> Self
        ensures { (q : ℕ) → holds result q ≡ (eqb p q && ltb q places) }
    {
        if p < Self::PLACES {
            let word = 1 << p;
            Self { word }
        } else {
            Self::EMPTY
        }
    }

    // All positions up to n.
    pub fn up_to(n: usize) -> Self
        ensures { (q : ℕ) → holds result q ≡ (leb q n && ltb q places) }
    {
        if n < Self::LOG_LIMIT {
            let after = n + 1;
            let next: u64 = 1 << after;
            let word = next - 1;
            Self { word }
        } else {
            Self { word: !0 }
        }
    }

    // The set that a number in a table stands for.
    pub fn of_word(word: u64) -> Self
        ensures { SetWord (holds result) word }
    {
        Self { word }
    }

    pub fn join(self, other: PositionSet) -> Self
        ensures { (q : ℕ) → holds result q ≡ (holds self q || holds other q) }
    {
        Self {
            word: self.word | other.word,
        }
    }

    pub fn meet(self, other: PositionSet) -> Self
        ensures { (q : ℕ) → holds result q ≡ (holds self q && holds other q) }
    {
        Self {
            word: self.word & other.word,
        }
    }

    pub fn without(self, other: PositionSet) -> Self
        ensures { (q : ℕ) → holds result q ≡ (holds self q && not (holds other q)) }
    {
        let rest = !other.word;
        Self {
            word: self.word & rest,
        }
    }

    // Each position one further; the last place falls out.
    pub fn up(self) -> Self
        ensures { (q : ℕ) → holds result q ≡ (ltb q places && leb 1 q && holds self (q - 1)) }
    {
        Self {
            word: self.word << 1,
        }
    }

    // Each position one back; position 0 falls out.
    pub fn down(self) -> Self
        ensures { (q : ℕ) → holds result q ≡ holds self (q + 1) }
    {
        Self {
            word: self.word >> 1,
        }
    }

    pub fn has(self, p: usize) -> bool
        ensures { result ≡ holds self p }
    {
        if p < Self::PLACES {
            let from_p = self.word >> p;
            from_p % 2 == 1
        } else {
            false
        }
    }

    pub fn is_empty(self) -> bool
        ensures { (result ≡ true) ↔ Empty self }
    {
        self.word == 0
    }

    // Each position of this set is one of the other.
    pub fn within(self, other: PositionSet) -> bool
        ensures { (result ≡ true) ↔ Inside self other }
    {
        let rest = self.without(other);
        rest.is_empty()
    }

    pub fn count(self) -> usize
        ensures { result ≡ count_of (holds self) }
    {
        let ones = u64::count_ones(self.word);
        ones as usize
    }

    // The first position, and PLACES where there is none: the number that the answer of `reach` has there, and no Option.
    pub fn earliest(self) -> usize
        ensures { result ≡ earliest_of (holds self) }
    {
        let zeros = u64::trailing_zeros(self.word);
        zeros as usize
    }

    // The set as a number, with bit q for position q.
    pub fn word(self) -> u64
        ensures { SetWord (holds self) result }
    {
        self.word
    }
}
