// Where each rule of a text ends: a byte for each place, filled from the right. Whoever has read a rule finds by it where a second part begins.
ghost use Rattle.std.specs.Prelude.{◌≡◌, ◌+◌, ◌-◌, ◌≤◌, ◌<◌, min, length, get_or};
ghost use Rattle.meaning.specs.Limits.{text_limit};
ghost use Rattle.grammar.specs.Ends.{TableFrom, end_at, FillOutcome};

use crate::TEXT_LIMIT;
use crate::signs::{Sign, sign_of};

// A table of a whole text: a byte for each place, and for the end.
pub const ENDS_ROOM: usize = TEXT_LIMIT + 1;

// So many bytes on, or at the text's end.
fn within(text: &[u8], at: usize, width: usize) -> u8
    requires { (at < length text.now) × (length text.now ≤ text_limit) }
    ensures { result ≡ at + min width (length text.now - at) }
{
    (at + width.min(text.len() - at)) as u8
}

// Where the rule at a place ends, by the ends of those after it. What is no sign ends after itself, a number and a letter at the text's end at the latest.
fn end_at(text: &[u8], ends: &[u8], at: usize) -> u8
    requires { TableFrom text.now ends.now at }
    ensures { result ≡ end_at text.now at }
{
    let next = at + 1;
    match sign_of(text[at]) {
        Sign::Step | Sign::Constant | Sign::Stranger => next as u8,
        Sign::NamedStep | Sign::NamedFluent => within(text, at, 3),
        Sign::SumStep | Sign::SumFluent => within(text, at, 4),
        Sign::OverWalk | Sign::OverTest | Sign::Denial => ends[next],
        Sign::SomeWalk | Sign::SomeTest => ends[text.len().min(at + 2)],
        Sign::TwoWalks | Sign::TwoTests | Sign::WalkThenTest => {
            let middle = usize::from(ends[next]);
            ends[middle]
        }
    }
}

// A text over 255 bytes is no rule's, and a table has a byte more than its text: else nothing is changed.
pub fn fill_ends(text: &[u8], ends: &mut [u8])
    ensures { FillOutcome text.now ends.old ends.new }
{
    let length = text.len();
    if TEXT_LIMIT < length || ends.len() <= length {
        return;
    }
    ends[length] = length as u8;
    for at in (0..length).rev() {
        ends[at] = end_at(text, ends, at);
    }
}

// Where the second part of the sign at a place begins: behind the first.
pub fn second(ends: &[u8; ENDS_ROOM], at: usize) -> usize
    requires { at + 1 ≤ text_limit }
    ensures { result ≡ get_or ends.now (at + 1) 0 }
{
    usize::from(ends[at + 1])
}
