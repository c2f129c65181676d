// The text of the tests, as it is looked at before any test is read: whether its last LF is there, and how many tests it falls into.
ghost use Rattle.std.specs.Prelude.{◌≡◌, ◌↔◌, true, List, ℕ, length};
ghost use Rattle.board.specs.Tests.{FallsInto, NoLastLf};

// The last LF is missing.
pub(crate) fn no_last_lf(text: &[u8]) -> bool
    ensures { (result ≡ true) ↔ NoLastLf text.now }
{
    text.last().is_some_and(|b| *b != b'\n')
}

// How many tests there are: as many as LFs.
pub(crate) fn count(text: &[u8]) -> usize
    ensures { (tests : List (List ℕ)) → FallsInto text.now tests → result ≡ length tests }
{
    text.iter().filter(|b| **b == b'\n').count()
}
