// Which values of its variable a binder goes over. Knows the letters in a text, and no set of positions.
ghost use Rattle.std.specs.Prelude.{◌≡◌, ◌⊎◌, true, false, ◌≤◌, ◌<◌, length, get_or};
ghost use Rattle.grammar.specs.Standing.{Ends};
ghost use Rattle.runs.specs.Values.{domain_in, BinderHere, Clean, Passed, Turns};
ghost use Rattle.steps.specs.Values.{listed};

use grammar::ends::ENDS_ROOM;
use steps::letters::Values;

// Where the rule at a place ends, if the table has it; else no further on.
pub(crate) fn end_of(ends: &[u8], at: usize) -> usize
    ensures { (result ≤ at) ⊎ (result ≡ get_or ends.now at 0) }
{
    if at < ends.len() {
        usize::from(ends[at])
    } else {
        0
    }
}

// One of the two binders.
fn binds(sign: u8) -> bool
    ensures { result ≡ true → (sign ≡ 112) ⊎ (sign ≡ 101) }
{
    match sign {
        b'p' => true,
        b'e' => true,
        _ => false,
    }
}

// Where to look next for a variable's letter: behind a part that binds it anew, or at the next place.
fn passed(text: &[u8], ends: &[u8], name: u8, i: usize) -> usize
    requires { i < length text.now }
    ensures { Passed text.now ends.now name i result }
{
    let next = i + 1;
    let sign = text[i];
    if !binds(sign) {
        return next;
    }
    if text.len() <= next {
        return next;
    }
    if text[next] != name {
        return next;
    }
    end_of(ends, i)
}

// Whether the variable with this letter stands free between two places.
fn stands(text: &[u8], ends: &[u8], name: u8, from: usize, to: usize) -> bool
    requires { to ≤ length text.now }
    ensures { result ≡ false → Clean text.now ends.now name to from }
{
    // a `while`, since it does not count: a part that binds the variable anew is leapt over
    let mut i = from;
    while i < to {
        if text[i] == name {
            return true;
        }
        let next = passed(text, ends, name, i);
        if next <= i {
            return true;
        }
        i = next;
    }
    false
}

// How many values the binder at a place goes over, whose part ends there: one alone, where its variable does not stand free in its part.
pub(crate) fn turns(
    text: &[u8],
    ends: &[u8; ENDS_ROOM],
    at: usize,
    end: usize,
    vars: &Values,
) -> usize
    requires { BinderHere text.now at end × Ends text.now ends.now }
    ensures { Turns text.now at (domain_in (listed vars.now)) result }
{
    let domain = vars.domain;
    if domain < 2 {
        return domain;
    }
    let letter = at + 1;
    let part = at + 2;
    let name = text[letter];
    if stands(text, ends, name, part, end) {
        domain
    } else {
        1
    }
}
