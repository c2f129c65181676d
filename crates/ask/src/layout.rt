// What the evaluator reads of a question that no check refuses: where each rule of the text ends, and the rows of the log.
ghost use Rattle.std.specs.Prelude.{◌≡◌, ◌≤◌, length};
ghost use Rattle.meaning.specs.Limits.{text_limit};
ghost use Rattle.theory.specs.Subject.{subject, Readable};
ghost use Rattle.ask.specs.LaidOut.{no_ends, LaidOut};

use grammar::ends::{ENDS_ROOM, fill_ends};
use tables::{ROWS, transpose};
use theory::Asked;

// Both tables are written whole; that of ends is lent empty.
pub(crate) fn lay_out(asked: Asked, rule: &[u8], ends: &mut [u8; ENDS_ROOM], rows: &mut [u64; ROWS])
    requires { Readable asked.masks.now asked.log.now × (length rule.now ≤ text_limit) × (ends.old ≡ no_ends) }
    ensures { LaidOut (subject asked.entry) rule.now ends.new rows.new }
{
    fill_ends(rule, ends);
    transpose(asked, rows);
}
