#![tactic(auto)]
// The refusals of document 01: one case for each row of its table "Numbers of refusal", and those that document 02 adds. Knows no call and no input.
ghost use Rattle.std.specs.Prelude.{◌≡◌};
ghost use Rattle.refusal.specs.Number.{number_of};

#[derive(Clone, Copy, Debug, PartialEq, Eq)]
pub enum Refusal {
    SheetTooLong,
    BadLine,
    BadNumber,
    LacksFluent,
    BadLog,
    BadRule,
    LacksName,
    TooDeep,
    BackwardJob,
    BadPosition,
    NoFinish,
    ShortOutput,
    Unbound,
}

// The number that the table gives this refusal.
impl From<Refusal> for u8 {
    ghost from_gives = { λ r n. n ≡ number_of r };

    fn from(r: Refusal) -> u8 {
        match r {
            Refusal::SheetTooLong => 1,
            Refusal::BadLine => 2,
            Refusal::BadNumber => 3,
            Refusal::LacksFluent => 4,
            Refusal::BadLog => 5,
            Refusal::BadRule => 6,
            Refusal::LacksName => 7,
            Refusal::TooDeep => 8,
            Refusal::BackwardJob => 9,
            Refusal::BadPosition => 10,
            Refusal::NoFinish => 11,
            Refusal::ShortOutput => 12,
            Refusal::Unbound => 13,
        }
    }
}
