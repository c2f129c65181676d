// The facts of a rule, and how they come from those of its parts. Knows no text. A part that may be none is taken by `let .. else` here and in the readers:
// behind a `?` the compiler moves the facts as one word, which were just stored byte by byte, and to read 255 signs takes up to 1.4 times as long.
ghost use Rattle.std.specs.Prelude.{◌≡◌, ◌^◌, ◌≤◌, ◌<◌, length};
ghost use Rattle.meaning.specs.Limits.{text_limit};
ghost use Rattle.grammar.specs.Letters.{variables};
ghost use Rattle.rule.specs.Facts.{depth_in, end_in, NamedWithin, PlaceWithin, LetterWithin};
ghost use Rattle.rule.specs.Facts.{leaf_of, step_of, fluent_of, lettered_of, above_of, bound_of, beside_of, inside_of};

// What is told of a rule: where it ends, its depth, how many actions and fluents a theory must have to know all that it names, whether a backward sign stands
// outside every `<` walk, which variables stand free (a bit each, `v` the lowest), and whether a sign of variables stands in it. A byte each: no text is
// longer than 255, and each call of the readers holds several.
#[derive(Clone, Copy, Debug, PartialEq, Eq)]
pub struct Facts {
    pub end: u8,
    pub depth: u8,
    pub actions: u8,
    pub fluents: u8,
    pub backward: bool,
    pub free: u8,
    pub varies: bool,
}

// The set that has the variable at this place alone.
fn bit(place: u8) -> u8
    requires { place < length variables }
    ensures { result ≡ 2 ^ place }
{
    1 << place
}

// A sign with no part and no name: where it ends, and whether it is a backward sign.
pub(crate) fn leaf(end: usize, turn: bool) -> Facts
    requires { end ≤ text_limit }
    ensures { result ≡ leaf_of end turn }
{
    Facts {
        end: end as u8,
        depth: 1,
        actions: 0,
        fluents: 0,
        backward: turn,
        free: 0,
        varies: false,
    }
}

// A step that names an action: the theory must have so many more than its number.
pub(crate) fn step(name: Option<u32>, more: usize, end: usize, turn: bool) -> Option<Facts>
    requires { NamedWithin name more end }
    ensures { result ≡ step_of name more end turn }
{
    let Some(number) = name else {
        return None;
    };
    Some(Facts {
        actions: number as u8 + more as u8,
        ..leaf(end, turn)
    })
}

// A test that names a fluent.
pub(crate) fn fluent(name: Option<u32>, more: usize, end: usize) -> Option<Facts>
    requires { NamedWithin name more end }
    ensures { result ≡ fluent_of name more end }
{
    let Some(number) = name else {
        return None;
    };
    Some(Facts {
        fluents: number as u8 + more as u8,
        ..leaf(end, false)
    })
}

// A step or a test that names a sum: a variable's letter stands behind the number.
pub(crate) fn lettered(part: Option<Facts>, letter: Option<u8>) -> Option<Facts>
    requires { LetterWithin letter (end_in part) }
    ensures { result ≡ lettered_of part letter }
{
    let Some(place) = letter else {
        return None;
    };
    let Some(f) = part else {
        return None;
    };
    Some(Facts {
        end: f.end + 1,
        free: bit(place),
        varies: true,
        ..f
    })
}

// A sign above one part.
pub(crate) fn above(part: Option<Facts>, turn: bool) -> Option<Facts>
    requires { depth_in part < text_limit }
    ensures { result ≡ above_of part turn }
{
    let Some(f) = part else {
        return None;
    };
    Some(Facts {
        depth: f.depth + 1,
        backward: turn || f.backward,
        ..f
    })
}

// A sign above one part that binds a variable there: the letter adds no depth.
pub(crate) fn bound(letter: Option<u8>, part: Option<Facts>) -> Option<Facts>
    requires { PlaceWithin letter × (depth_in part < text_limit) }
    ensures { result ≡ bound_of letter part }
{
    let Some(place) = letter else {
        return None;
    };
    let Some(f) = part else {
        return None;
    };
    let others = !bit(place);
    Some(Facts {
        depth: f.depth + 1,
        free: f.free & others,
        varies: true,
        ..f
    })
}

// A sign above two parts, of which the first is read.
pub(crate) fn beside(first: Facts, second: Option<Facts>) -> Option<Facts>
    requires { (first.depth < text_limit) × (depth_in second < text_limit) }
    ensures { result ≡ beside_of first second }
{
    let Some(second) = second else {
        return None;
    };
    Some(Facts {
        end: second.end,
        depth: first.depth.max(second.depth) + 1,
        actions: first.actions.max(second.actions),
        fluents: first.fluents.max(second.fluents),
        backward: first.backward || second.backward,
        free: first.free | second.free,
        varies: first.varies || second.varies,
    })
}

// The walk of a `<`: no backward sign in it stands outside.
pub(crate) fn inside(walk: Facts) -> Facts
    ensures { result ≡ inside_of walk }
{
    Facts {
        backward: false,
        ..walk
    }
}
