// The theory of a job of cartons: fluent i is that label i + 1 is out, action i prints it, the last action voids all. The library's calls are asked about it.
ghost use Rattle.std.specs.Prelude.{◌≡◌, ◌↔◌, true, ◌≤◌, length};
ghost use Rattle.desk.specs.Log.{carton_limit};
ghost use Rattle.desk.specs.Answer.{BadCartons, BadLabel};
ghost use Rattle.desk.specs.Labels.{LabelTheory, table_room, lowest_off};

use crate::CARTON_LIMIT;
use theory::STRIDE;
use theory::rows::plain_row;

// A row for each print, and one for the void.
pub const ROOM: usize = STRIDE * (CARTON_LIMIT + 1);

// The number of cartons is out of its range.
pub(crate) fn bad_cartons(cartons: usize) -> bool
    ensures { (result ≡ true) ↔ BadCartons cartons }
{
    cartons < 1 || CARTON_LIMIT < cartons
}

// The label is none of the job's. What this test has in common with the one above is its form alone.
pub(crate) fn bad_label(cartons: usize, label: usize) -> bool
    ensures { (result ≡ true) ↔ BadLabel cartons label }
{
    label < 1 || cartons < label
}

// The table, in the front of the room: a print needs the lower labels and puts its own, the void drops all.
pub(crate) fn fill(cartons: usize, masks: &mut [u32; ROOM]) -> &[u32]
    requires { (cartons ≤ carton_limit) × (length masks.old ≡ table_room) }
    ensures { LabelTheory cartons result.now }
{
    for a in 0..cartons {
        let own = 1u32 << a;
        let lower = own - 1;
        plain_row(masks, a, lower, 0, own, 0);
    }
    let beyond = 1u32 << cartons;
    let all = beyond - 1;
    plain_row(masks, cartons, 0, 0, 0, all);
    &masks[..STRIDE * (cartons + 1)]
}

// The first label that is off in the state, if one is.
pub(crate) fn lowest(cartons: usize, out: u32) -> Option<usize>
    requires { cartons ≤ carton_limit }
    ensures { result ≡ lowest_off cartons out }
{
    let first = (!out).trailing_zeros() as usize;
    if first < cartons {
        Some(first + 1)
    } else {
        None
    }
}
