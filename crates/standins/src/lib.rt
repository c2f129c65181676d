#![tactic(auto)]
// Actions that a smaller one stands in for: the job names neither, both are possible in the same states, their clauses act in the same states, and both do the
// same to every fluent that matters (named in the job, or in any need, ban, when or unless). A search for the first sequence that finishes the job need not try them: with
// the smaller action in its place a sequence comes earlier. A job with a variable in a name is taken to name all. Knows the mask table and the job's text; no log.
ghost use Rattle.std.specs.Prelude.{◌≡◌, ◌↔◌, true, ℕ, ◌+◌, ◌*◌, ◌≤◌, ◌<◌, length};
ghost use Rattle.laws.specs.Bit.{on};
ghost use Rattle.meaning.specs.Limits.{action_limit};
ghost use Rattle.meaning.specs.Theory.{stride, clause_of};
ghost use Rattle.meaning.specs.StandIn.{Decides, SameClause, Alike};
ghost use Rattle.spelling.specs.Scan.{NumberAt};
ghost use Rattle.theory.specs.Subject.{clause_at, table_masks};
ghost use Rattle.standins.specs.Worth.{Table, others, Behind, Named, Sum, Unsummed, AnyStep, Decisive, Like, Sifted, Worth};

use spelling::scan::two_digits;
use theory::{ACTION_LIMIT, STRIDE};

// The number at a place, as a bit; none where it is past the last action, or no number.
fn number_bit(text: &[u8], at: usize) -> u64
    ensures { (n : ℕ) → (on result n ≡ true) ↔ ((n < action_limit) × NumberAt text.now at (Some n)) }
{
    match two_digits(text, at) {
        Some(n) if (n as usize) < ACTION_LIMIT => 1 << n,
        _ => 0,
    }
}

// The number behind one of two signs, as a bit; none where neither stands.
fn bit_behind(text: &[u8], one: u8, other: u8, at: usize) -> u64
    requires { at < length text.now }
    ensures { (n : ℕ) → (on result n ≡ true) ↔ ((n < action_limit) × Behind text.now one other at n) }
{
    let sign = text[at];
    if sign == one || sign == other {
        number_bit(text, at + 1)
    } else {
        0
    }
}

// The numbers behind one of two signs, in the whole text.
fn named(text: &[u8], one: u8, other: u8) -> u64
    ensures { Named text.now one other (length text.now) result }
{
    let mut all = 0;
    for at in 0..text.len() {
        all |= bit_behind(text, one, other, at);
    }
    all
}

// The fluents in a need, a ban, a when or an unless of action a.
fn deciding(masks: &[u32], a: usize) -> u32
    requires { stride * a + stride ≤ length masks.now }
    ensures { (i : ℕ) → (on result i ≡ true) ↔ Decides (table_masks masks.now a) i }
{
    let row = STRIDE * a;
    let one = row + 2;
    let two = row + 6;
    let need = masks[row];
    let ban = masks[row + 1];
    let when = masks[one];
    let unless = masks[one + 1];
    let when2 = masks[two];
    let unless2 = masks[two + 1];
    let taken = need | ban;
    let acting = when | unless;
    let acting2 = when2 | unless2;
    taken | (acting | acting2)
}

// The same of all actions.
fn decisive(masks: &[u32], actions: usize) -> u32
    requires { Table actions masks.now }
    ensures { Decisive masks.now actions result }
{
    let mut all = 0;
    for a in 0..actions {
        all |= deciding(masks, a);
    }
    all
}

// What two clauses do to the fluents that matter is the same. What a clause puts it does not drop: put wins.
fn same_effects(put: u32, drop: u32, put2: u32, drop2: u32, matter: u64) -> bool
    ensures { (when unless : ℕ) → (result ≡ true) ↔ SameClause (others matter) (clause_of when unless put drop) (clause_of when unless put2 drop2) }
{
    let dropped = drop & !put;
    let dropped2 = drop2 & !put2;
    let puts = put ^ put2;
    let drops = dropped ^ dropped2;
    u64::from(puts | drops) & matter == 0
}

// The clauses from two places of the table on act in the same states (when and unless), and do the same (put and drop) to the fluents that matter.
fn same_clause(masks: &[u32], one: usize, two: usize, matter: u64) -> bool
    requires { (one + 4 ≤ length masks.now) × (two + 4 ≤ length masks.now) }
    ensures { (result ≡ true) ↔ SameClause (others matter) (clause_at masks.now one) (clause_at masks.now two) }
{
    masks[one] == masks[two]
        && masks[one + 1] == masks[two + 1]
        && same_effects(
            masks[one + 2],
            masks[one + 3],
            masks[two + 2],
            masks[two + 3],
            matter,
        )
}

// Two actions are possible in the same states (need and ban), and do the same (by both clauses) to the fluents that matter.
fn alike(masks: &[u32], a: usize, b: usize, matter: u64) -> bool
    requires { (stride * a + stride ≤ length masks.now) × (stride * b + stride ≤ length masks.now) }
    ensures { (result ≡ true) ↔ Alike (others matter) (table_masks masks.now a) (table_masks masks.now b) }
{
    let row = STRIDE * a;
    let row2 = STRIDE * b;
    masks[row] == masks[row2]
        && masks[row + 1] == masks[row2 + 1]
        && same_clause(masks, row + 2, row2 + 2, matter)
        && same_clause(masks, row + 6, row2 + 6, matter)
}

// One of these actions, smaller than b, is like it.
fn like_smaller(masks: &[u32], these: u64, matter: u64, b: usize) -> bool
    requires { (b < action_limit) × (stride * b + stride ≤ length masks.now) }
    ensures { (result ≡ true) ↔ Like masks.now these matter b }
{
    for a in 0..b {
        if (these >> a) % 2 == 1 && alike(masks, a, b, matter) {
            return true;
        }
    }
    false
}

// All actions but those that a smaller one stands in for. It is enough to look among the smaller ones that are kept.
fn sifted(masks: &[u32], actions: usize, unnamed: u64, matter: u64) -> u64
    requires { Table actions masks.now }
    ensures { Sifted masks.now unnamed (others matter) actions result }
{
    let mut kept: u64 = !0;
    for b in 0..actions {
        if (unnamed >> b) % 2 == 1 && like_smaller(masks, kept & unnamed, matter, b) {
            kept &= !(1 << b);
        }
    }
    kept
}

// A sum: `b`, `g` or `s`.
fn sum(sign: u8) -> bool
    ensures { (result ≡ true) ↔ Sum sign }
{
    matches!(sign, b'b' | b'g' | b's')
}

// Some sign takes any action, and none is a sum. Where none takes any, the job asks for no action that it does not name, and leaving any out would save nothing. A sum may name any action
// and any fluent, so that nothing can be left out.
fn takes_others(job: &[u8]) -> bool
    ensures { (result ≡ true) ↔ (Unsummed job.now (length job.now) × AnyStep job.now (length job.now)) }
{
    job.contains(&b'n') && !job.iter().any(|sign| sum(*sign))
}

// The actions that are worth trying, bit a for action a.
pub fn worth(actions: usize, masks: &[u32], job: &[u8]) -> u64
    requires { Table actions masks.now }
    ensures { Worth actions masks.now job.now result }
{
    if !takes_others(job) {
        return !0;
    }
    let labels = named(job, b'a', b'r');
    let fluents = named(job, b'f', b'f');
    let decide = decisive(masks, actions);
    let matter = fluents | u64::from(decide);
    sifted(masks, actions, !labels, matter)
}
