// Which refusal the whole call is given, before any test is read: the text of the tests, theory and log, the two times, and the room, last.
ghost use Rattle.theory.specs.Check.{Settled};
ghost use Rattle.theory.specs.Subject.{subject};
ghost use Rattle.board.specs.Rows.{board_rows};

use crate::{TEST_LIMIT, tests};
use ask::checks::check_times;
use refusal::Refusal;
use theory::Asked;
use theory::faults::check_world;

pub(crate) fn check(
    asked: Asked,
    text: &[u8],
    then: usize,
    now: usize,
    room: usize,
) -> Result<(), Refusal>
    ensures { Settled (board_rows (subject asked.entry) text.now then now room) result }
{
    if tests::no_last_lf(text) {
        return Err(Refusal::BadLine);
    }
    let many = tests::count(text);
    if TEST_LIMIT < many {
        return Err(Refusal::BadNumber);
    }
    check_world(asked)?;
    check_times(asked.log, then, now)?;
    if room < many {
        return Err(Refusal::ShortOutput);
    }
    Ok(())
}
