// The two readers: a walk's and a test's, which call one another, each on a shorter rest. Each byte is read once, and what follows it is asked of the
// table of signs. They are given at most 255 bytes and at most 16 values of a variable, so that each fact of what they find fits a byte. They stay two,
// since the signs of a walk and those of a test are not the same.
ghost use Rattle.std.specs.Prelude.{◌≤◌, length};
ghost use Rattle.meaning.specs.Limits.{text_limit, domain_limit};
ghost use Rattle.meaning.specs.Rule.{walk_kind, test_kind};
ghost use Rattle.rule.specs.Read.{ReadAt};

use crate::answer::{Facts, above, beside, bound, fluent, inside, leaf, lettered, step};
use grammar::letters::variable_at;
use grammar::signs::{Sign, sign_of, turns};
use spelling::scan::two_digits;

// The facts of the walk that stands at a place of the text; or none stands there.
#[cycle(read_test_read_walk)]
pub(crate) fn read_walk(text: &[u8], at: usize, domain: usize) -> Option<Facts>
    requires { (length text.now ≤ text_limit) × (domain ≤ domain_limit) }
    ensures { ReadAt walk_kind domain text.now at result }
{
    if text.len() <= at {
        return None;
    }
    let next = at + 1;
    let sign = text[at];
    match sign_of(sign) {
        Sign::Step => Some(leaf(next, turns(sign))),
        Sign::NamedStep => step(two_digits(text, next), 1, at + 3, turns(sign)),
        Sign::OverWalk => above(read_walk(text, next, domain), turns(sign)),
        Sign::OverTest => above(read_test(text, next, domain), false),
        Sign::TwoWalks => {
            let Some(first) = read_walk(text, next, domain) else {
                return None;
            };
            let middle = first.end as usize;
            let second = read_walk(text, middle, domain);
            beside(first, second)
        }
        Sign::SumStep => {
            let end = at + 3;
            let named = step(two_digits(text, next), domain, end, turns(sign));
            lettered(named, variable_at(text, end))
        }
        Sign::SomeWalk => {
            let part = read_walk(text, at + 2, domain);
            bound(variable_at(text, next), part)
        }
        _ => None,
    }
}

// The facts of the test that stands at a place of the text; or none stands there.
#[cycle(read_test_read_walk)]
pub(crate) fn read_test(text: &[u8], at: usize, domain: usize) -> Option<Facts>
    requires { (length text.now ≤ text_limit) × (domain ≤ domain_limit) }
    ensures { ReadAt test_kind domain text.now at result }
{
    if text.len() <= at {
        return None;
    }
    let next = at + 1;
    match sign_of(text[at]) {
        Sign::Constant => Some(leaf(next, false)),
        Sign::NamedFluent => fluent(two_digits(text, next), 1, at + 3),
        Sign::Denial => above(read_test(text, next, domain), false),
        Sign::TwoTests => {
            let Some(first) = read_test(text, next, domain) else {
                return None;
            };
            let middle = first.end as usize;
            let second = read_test(text, middle, domain);
            beside(first, second)
        }
        Sign::WalkThenTest => {
            let Some(first) = read_walk(text, next, domain) else {
                return None;
            };
            let middle = first.end as usize;
            let second = read_test(text, middle, domain);
            beside(inside(first), second)
        }
        Sign::SumFluent => {
            let end = at + 3;
            let named = fluent(two_digits(text, next), domain, end);
            lettered(named, variable_at(text, end))
        }
        Sign::SomeTest => {
            let part = read_test(text, at + 2, domain);
            bound(variable_at(text, next), part)
        }
        _ => None,
    }
}
