#![tactic(auto)]
// The whole board at once: up to 64 tests about one log, a byte each. The theory and the log are checked, and the log is transposed, once for all of them. Knows no rule.
ghost use Rattle.meaning.specs.Refusal.{no_count};
ghost use Rattle.refusal.specs.Given.{number_given, value_given};
ghost use Rattle.theory.specs.Subject.{subject};
ghost use Rattle.board.specs.Answer.{BoardAnswered};

mod checks; // checks.rt: which refusal the whole call is given
mod tell; // tell.rt: each test in its turn
mod tests; // tests.rt: the text of the tests, before any is read

use refusal::Refusal;
use tables::{ROWS, transpose};
use theory::Asked;

// "Up to 64 tests."
pub const TEST_LIMIT: usize = 64;

// Whether each test of the text is true at `then`, with this now: a byte each, from the front of the output, the rest of which keeps its content. The answer is how many tests were told.
pub fn board(
    asked: Asked,
    tests: &[u8],
    then: usize,
    now: usize,
    out: &mut [u8],
) -> Result<usize, Refusal>
    ensures { BoardAnswered (subject asked.entry) tests.now then now out.old (number_given result) (value_given no_count result) out.new }
{
    checks::check(asked, tests, then, now, out.len())?;
    let mut rows = [0; ROWS];
    transpose(asked, &mut rows);
    Ok(tell::tell(asked.setting, tests, &rows, then, now, out))
}
