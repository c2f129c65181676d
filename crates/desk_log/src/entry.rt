// What a line says: a label by its number, in plain decimals, or the word void. Knows bytes and the desk's actions.
ghost use Rattle.std.specs.Prelude.{◌≤◌};
ghost use Rattle.desk.specs.Log.{carton_limit};
ghost use Rattle.desk_log.specs.Entry.{LabelRead, EntryIs};

// Plain decimals of a label fit here.
const ROOM: usize = 3;

// The label up to this one that the line is the number of, if it is of any.
pub(crate) fn label(most: usize, line: &[u8]) -> Option<usize>
    requires { most ≤ carton_limit }
    ensures { LabelRead most line.now result }
{
    for k in 1..=most {
        let mut text = [0u8; ROOM];
        let n = spelling::put::decimal(&mut text, 0, k as u32);
        if line == &text[..n] {
            return Some(k);
        }
    }
    None
}

// The action that the line stands for, if for any: a label's print, or the void, which is the last.
pub(crate) fn action(cartons: usize, line: &[u8]) -> Option<usize>
    requires { cartons ≤ carton_limit }
    ensures { EntryIs cartons line.now result }
{
    if line == b"void".as_slice() {
        return Some(cartons);
    }
    let k = label(cartons, line)?;
    Some(k - 1)
}
