#![tactic(auto)]
// The exported functions that ask a rule of a log: thin over a proved call each, they promise what that call promises. A slice is a pointer and a length in C; a number beside the refusal is a lent slot,
// which is always written. They have the domain of the rule's variables, 0 where it has none, and how a test inside a walk is read, 0 for `step`, 1 for `end`.
ghost use Rattle.ask.specs.Reach.{ReachAnswered};
ghost use Rattle.ask.specs.Verdict.{VerdictAnswered};
ghost use Rattle.board.specs.Answer.{BoardAnswered};
ghost use Rattle.exported.specs.Exported.{asked, InSlot};

use ask::Reached;
use exported::{told, verdict_told};
use theory::{Asked, Setting};

// What the slots have on a refusal.
const NOTHING: Reached = Reached {
    set: 0,
    count: 0,
    earliest: 64,
};

// The positions that a walk leads to from `then`, with this now.
#[unsafe(no_mangle)]
pub extern "C" fn wyh_reach(
    fluents: usize,
    actions: usize,
    domain: usize,
    start: u32,
    reading: usize,
    masks: &[u32],
    log: &[u8],
    walk: &[u8],
    then: usize,
    now: usize,
    set: &mut u64,
    count: &mut u32,
    earliest: &mut u32,
) -> u8
    ensures { ReachAnswered (asked fluents actions domain start reading masks.now log.now) walk.now then now result set.new count.new earliest.new }
{
    let setting = Setting::of(fluents, actions, domain, start, reading);
    let asked = Asked {
        setting,
        masks,
        log,
    };
    let mut found = NOTHING;
    let refusal = told(ask::reach(asked, walk, then, now), NOTHING, &mut found);
    *set = found.set;
    *count = found.count as u32;
    *earliest = found.earliest as u32;
    refusal
}

// Whether a test is true at `then`, with this now: 1 or 0 in the slot.
#[unsafe(no_mangle)]
pub extern "C" fn wyh_verdict(
    fluents: usize,
    actions: usize,
    domain: usize,
    start: u32,
    reading: usize,
    masks: &[u32],
    log: &[u8],
    test: &[u8],
    then: usize,
    now: usize,
    yes: &mut u8,
) -> u8
    ensures { InSlot (VerdictAnswered (asked fluents actions domain start reading masks.now log.now) test.now then now result) yes.new }
{
    let setting = Setting::of(fluents, actions, domain, start, reading);
    let asked = Asked {
        setting,
        masks,
        log,
    };
    verdict_told(ask::verdict(asked, test, then, now), yes)
}

// Whether each test of the text is true at `then`, with this now: a byte each, at the front of the output.
#[unsafe(no_mangle)]
pub extern "C" fn wyh_board(
    fluents: usize,
    actions: usize,
    domain: usize,
    start: u32,
    reading: usize,
    masks: &[u32],
    log: &[u8],
    tests: &[u8],
    then: usize,
    now: usize,
    out: &mut [u8],
    count: &mut usize,
) -> u8
    ensures { BoardAnswered (asked fluents actions domain start reading masks.now log.now) tests.now then now out.old result count.new out.new }
{
    let setting = Setting::of(fluents, actions, domain, start, reading);
    let asked = Asked {
        setting,
        masks,
        log,
    };
    told(board::board(asked, tests, then, now, out), 0, count)
}
