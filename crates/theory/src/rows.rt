// A row of the mask table from document 01's four masks of an action.
ghost use Rattle.std.specs.Prelude.{◌≡◌, ◌+◌, ◌*◌, ◌≤◌, length};
ghost use Rattle.meaning.specs.Theory.{stride};
ghost use Rattle.theory.specs.Plain.{row_of_plain, overwritten};

use crate::STRIDE;

// So many masks an action had there.
pub const PLAIN_STRIDE: usize = 4;

// Need and ban, one unconditional clause, and an empty one. The row is filled where it lies: copied from an array of its masks, a call of the desk takes up to
// 1.6 times as long.
pub fn plain_row(masks: &mut [u32], a: usize, need: u32, ban: u32, put: u32, drop: u32)
    requires { stride * a + stride ≤ length masks.old }
    ensures { masks.new ≡ overwritten masks.old (stride * a) (row_of_plain need ban put drop) }
{
    let at = STRIDE * a;
    let row = &mut masks[at..at + STRIDE];
    row.fill(0);
    row[0] = need;
    row[1] = ban;
    row[4] = put;
    row[5] = drop;
}
