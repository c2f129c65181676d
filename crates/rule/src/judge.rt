// Which refusal a rule is given: the counts, then the reading, then what the rule's facts decide. Knows document 01's limits.
ghost use Rattle.std.specs.Prelude.{◌≡◌, ◌↔◌, true, [], ◌≤◌, length};
ghost use Rattle.meaning.specs.Limits.{text_limit, domain_limit};
ghost use Rattle.meaning.specs.Rule.{job_kind};
ghost use Rattle.rule.specs.Read.{ReadAt};
ghost use Rattle.rule.specs.Outcome.{kind_of, bytes_from, PartAt};
ghost use Rattle.rule.specs.Judged.{OpenedAs, JudgedAs, SurveyedAs};

use crate::Kind;
use crate::answer::Facts;
use crate::reader::{read_test, read_walk};
use grammar::TEXT_LIMIT;
use positions::PositionSet;
use refusal::Refusal;
use theory::Counts;
use theory::faults::bad_counts;

// Each kind has its reader; a job is read as a walk is.
fn read_kind(text: &[u8], kind: Kind, domain: usize) -> Option<Facts>
    requires { (length text.now ≤ text_limit) × (domain ≤ domain_limit) }
    ensures { ReadAt (kind_of kind) domain text.now 0 result }
{
    match kind {
        Kind::Test => read_test(text, 0, domain),
        Kind::Walk | Kind::Job => read_walk(text, 0, domain),
    }
}

// "hands back the unread rest as a part of the same text": from the first unread byte on.
pub(crate) fn unread<'a>(text: &'a [u8], f: Facts) -> &'a [u8]
    requires { f.end ≤ length text.now }
    ensures { PartAt text.entry f.end (bytes_from f.end text.now) result }
{
    let end = f.end as usize;
    &text[end..]
}

// "an empty part where a part is handed back": of the same text still, at its front.
pub(crate) fn nothing<'a>(text: &'a [u8]) -> &'a [u8]
    ensures { PartAt text.entry 0 [] result }
{
    &text[..0]
}

// "6 for the new signs in .. domain 0": a sign of variables stands where a variable has no value.
fn barred(f: Facts, domain: usize) -> bool
    ensures { (result ≡ true) ↔ ((domain ≡ 0) × (f.varies ≡ true)) }
{
    domain == 0 && f.varies
}

// The rule that opens the text; with `whole`, it fits only when the unread part is empty.
fn opening(text: &[u8], kind: Kind, domain: usize, whole: bool) -> Option<Facts>
    requires { domain ≤ domain_limit }
    ensures { OpenedAs whole (kind_of kind) domain text.now result }
{
    if TEXT_LIMIT < text.len() {
        return None;
    }
    let f = read_kind(text, kind, domain)?;
    if barred(f, domain) {
        return None;
    }
    let rest = unread(text, f);
    if whole && !rest.is_empty() {
        return None;
    }
    Some(f)
}

// A job with a backward sign outside every `<` walk.
fn turned(f: Facts, kind: Kind) -> bool
    ensures { (result ≡ true) ↔ ((kind_of kind ≡ job_kind) × (f.backward ≡ true)) }
{
    kind == Kind::Job && f.backward
}

// Refusals 7, 8, 9 and 13: what the facts of a rule decide, smallest number first.
fn judge(f: Facts, kind: Kind, counts: Counts) -> Result<Facts, Refusal>
    ensures { JudgedAs (kind_of kind) counts f result }
{
    if counts.actions < f.actions as usize || counts.fluents < f.fluents as usize {
        return Err(Refusal::LacksName);
    }
    if PositionSet::DEPTH_LIMIT < f.depth as usize {
        return Err(Refusal::TooDeep);
    }
    if turned(f, kind) {
        return Err(Refusal::BackwardJob);
    }
    if 0 < f.free {
        return Err(Refusal::Unbound);
    }
    Ok(f)
}

// All checks of a rule in the order of their numbers; with `whole`, nothing may follow the rule. What fits is told of by its facts.
pub(crate) fn survey(text: &[u8], kind: Kind, counts: Counts, whole: bool) -> Result<Facts, Refusal>
    ensures { SurveyedAs whole (kind_of kind) text.now counts result }
{
    if bad_counts(counts) {
        return Err(Refusal::BadNumber);
    }
    let f = opening(text, kind, counts.domain, whole).ok_or(Refusal::BadRule)?;
    judge(f, kind, counts)
}
