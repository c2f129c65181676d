// The versions of the sheet: a row for each; and the mask table where a version's actions have four masks.
ghost use Rattle.std.specs.Prelude.{◌≡◌, ◌++◌, ◌*◌, ◌≤◌, length, drop};
ghost use Rattle.meaning.specs.Limits.{action_limit};
ghost use Rattle.meaning.specs.Theory.{stride};
ghost use Rattle.theory.specs.Plain.{plain_rows};
ghost use Rattle.sheet_lines.specs.Versions.{version_meant};

use crate::Version;
use positions::PositionSet;
use theory::STRIDE;
use theory::rows::{PLAIN_STRIDE, plain_row};

// The row of a version's number.
pub fn version_of(number: u32) -> Version
    ensures { result ≡ version_meant number }
{
    match number {
        4 => Version {
            valued: true,
            masks: STRIDE,
            log: PositionSet::LOG_LIMIT,
            reading: true,
        },
        3 => Version {
            valued: true,
            masks: STRIDE,
            log: PositionSet::LOG_LIMIT,
            reading: false,
        },
        2 => Version {
            valued: true,
            masks: PLAIN_STRIDE,
            log: PositionSet::LOG_LIMIT,
            reading: false,
        },
        _ => Version {
            valued: false,
            masks: PLAIN_STRIDE,
            log: PositionSet::LOG_LIMIT,
            reading: false,
        },
    }
}

// Where an action has four masks, which stand behind those of the action before: a row of the table for each. From the last action down, so that no row is written where masks are still to
// be read.
pub fn widen(actions: usize, masks: &mut [u32])
    requires { (actions ≤ action_limit) × (stride * actions ≤ length masks.old) }
    ensures { masks.new ≡ plain_rows masks.old 0 actions ++ drop (stride * actions) masks.old }
{
    for a in (0..actions).rev() {
        let from = PLAIN_STRIDE * a;
        let need = masks[from];
        let ban = masks[from + 1];
        let put = masks[from + 2];
        let drop = masks[from + 3];
        plain_row(masks, a, need, ban, put, drop);
    }
}
