// The rewriter: a walk function and a test function that call one another, from the rule's text to lent output. What follows a sign is asked of the table of
// signs, and where a second part begins of the table of ends.
ghost use Rattle.std.specs.Prelude.{◌≡◌, ◌+◌, length};
ghost use Rattle.meaning.specs.Limits.{text_limit};
ghost use Rattle.normal.specs.Sign.{facing_sign, swaps, signs_in_order};
ghost use Rattle.normal.specs.Place.{WalkToWrite, TestToWrite, NumberHere, LetterHere, WalkWritten, TestWritten, NumberWritten, LetterWritten};

use super::write::put;
use grammar::ends::{ENDS_ROOM, second};
use grammar::signs::{Sign, sign_of};

// What every call goes by: a text, and where each rule of it ends.
#[derive(Clone, Copy)]
pub(crate) struct Rewriter<'a> {
    pub text: &'a [u8],
    pub ends: &'a [u8; ENDS_ROOM],
    // the table has a byte for each place, and for the end
    pub ghost room: { length ends.now ≡ text_limit + 1 },
}

// Two parts of a sign, in the order in which they are written.
#[derive(Clone, Copy, Debug, PartialEq, Eq)]
pub struct Parts {
    pub first: usize,
    pub second: usize,
}

// The sign under a converse: `a` and `r` turn into each other, so do `n` and `u`, and `b` and `s`.
fn facing(sign: u8, back: bool) -> u8
    ensures { result ≡ facing_sign back sign }
{
    if !back {
        return sign;
    }
    match sign {
        b'a' => b'r',
        b'r' => b'a',
        b'n' => b'u',
        b'u' => b'n',
        b'b' => b's',
        b's' => b'b',
        _ => sign,
    }
}

// Of a sequence under a converse the second part comes first.
fn order(sign: u8, back: bool, from: usize, middle: usize) -> Parts
    ensures { result ≡ signs_in_order (swaps back sign) from middle }
{
    if back && sign == b';' {
        Parts {
            first: middle,
            second: from,
        }
    } else {
        Parts {
            first: from,
            second: middle,
        }
    }
}

impl<'a> Rewriter<'a> {
    // The two digits of a number.
    fn number(&self, at: usize, out: &mut [u8], to: usize) -> usize
        requires { NumberHere self.now.text.now at to }
        ensures { NumberWritten self.now.text.now at to out.old result out.new }
    {
        put(out, to, self.text[at]);
        put(out, to + 1, self.text[at + 1]);
        to + 2
    }

    // The letter of a variable.
    fn letter(&self, at: usize, out: &mut [u8], to: usize) -> usize
        requires { LetterHere self.now.text.now at to }
        ensures { LetterWritten self.now.text.now at to out.old result out.new }
    {
        put(out, to, self.text[at]);
        to + 1
    }

    // The walk at a place, or under a converse its converse; how far the output is written.
    #[cycle(test_walk)]
    pub(crate) fn walk(&self, at: usize, back: bool, out: &mut [u8], to: usize) -> usize
        requires { WalkToWrite self.now.text.now self.now.ends.now at to }
        ensures { WalkWritten self.now.text.now back at to out.old result out.new }
    {
        let sign = self.text[at];
        let from = at + 1;
        if sign == b'-' {
            return self.walk(from, !back, out, to);
        }
        put(out, to, facing(sign, back));
        let next = to + 1;
        match sign_of(sign) {
            Sign::Step => next,
            Sign::NamedStep => self.number(from, out, next),
            Sign::OverWalk => self.walk(from, back, out, next),
            Sign::OverTest => self.test(from, out, next),
            Sign::SumStep => {
                let named = self.number(from, out, next);
                self.letter(at + 3, out, named)
            }
            Sign::SomeWalk => {
                let bound = self.letter(from, out, next);
                self.walk(at + 2, back, out, bound)
            }
            _ => {
                let parts = order(sign, back, from, second(self.ends, at));
                let done = self.walk(parts.first, back, out, next);
                self.walk(parts.second, back, out, done)
            }
        }
    }

    // The test at a place. A converse outside it does not reach the walks inside.
    #[cycle(test_walk)]
    pub(crate) fn test(&self, at: usize, out: &mut [u8], to: usize) -> usize
        requires { TestToWrite self.now.text.now self.now.ends.now at to }
        ensures { TestWritten self.now.text.now at to out.old result out.new }
    {
        let sign = self.text[at];
        let from = at + 1;
        put(out, to, sign);
        let next = to + 1;
        match sign_of(sign) {
            Sign::Constant => next,
            Sign::NamedFluent => self.number(from, out, next),
            Sign::Denial => self.test(from, out, next),
            Sign::TwoTests => {
                let middle = second(self.ends, at);
                let done = self.test(from, out, next);
                self.test(middle, out, done)
            }
            Sign::SumFluent => {
                let named = self.number(from, out, next);
                self.letter(at + 3, out, named)
            }
            Sign::SomeTest => {
                let bound = self.letter(from, out, next);
                self.test(at + 2, out, bound)
            }
            _ => {
                let middle = second(self.ends, at);
                let done = self.walk(from, false, out, next);
                self.test(middle, out, done)
            }
        }
    }
}
