#![tactic(auto)]
// The exported functions for one rule's text: thin over a proved call each, they promise what that call promises. A slice is a pointer and a length in C; a number beside the refusal is a lent slot, which
// is always written. They look at the counts and the domain alone.
ghost use Rattle.theory.specs.Subject.{counted};
ghost use Rattle.rule_calls.specs.Exported.{RestExported, NormalExported};

mod kinds; // kinds.rt: a kind as a number

use exported::told;
use theory::Counts;

// Where the unread rest of a text begins, behind the rule that opens it.
#[unsafe(no_mangle)]
pub extern "C" fn wyh_read_rule(
    text: &[u8],
    kind: u8,
    fluents: usize,
    actions: usize,
    domain: usize,
    rest: &mut usize,
) -> u8
    ensures { RestExported kind text.now (counted fluents actions domain) result rest.new }
{
    let counts = Counts::of(fluents, actions, domain);
    told(kinds::rest(text, kind, counts), text.len(), rest)
}

// The normal form of a rule, at the front of the output.
#[unsafe(no_mangle)]
pub extern "C" fn wyh_normal(
    text: &[u8],
    kind: u8,
    fluents: usize,
    actions: usize,
    domain: usize,
    out: &mut [u8],
    count: &mut usize,
) -> u8
    ensures { NormalExported kind text.now (counted fluents actions domain) out.old result count.new out.new }
{
    let counts = Counts::of(fluents, actions, domain);
    told(kinds::normal(text, kind, counts, out), 0, count)
}
