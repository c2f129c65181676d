#![tactic(auto)]
// The desk for packers: reads the log on standard input, on each line a label's number or the word void, and answers each line: whether it was in order, and
// which label comes next. How many cartons there are is the argument.
ghost use Rattle.std.specs.Prelude.{◌≡◌, ◌↔◌, true, ◌≤◌, length, take};
ghost use Rattle.desk.specs.Log.{carton_limit, step_limit, void_of};
ghost use Rattle.desk.specs.Answer.{NextIs};
ghost use Rattle.desk_log.specs.Reply.{Kept, InOrder};

mod entry; // entry.rt: what a line says

use desk::{CARTON_LIMIT, LOG_LIMIT};
use std::env::Env;
use std::io::Read;

// So much of a line is kept: a byte more than the longest entry has, so that a longer line is seen to be none.
const LINE_ROOM: usize = 5;

// So much of an argument, for the same reason.
const WORD_ROOM: usize = 3;

// An answer that cannot be written is no fault of the program: who reads the answers sees that.
fn say(rt: &impl Print, text: &[u8]) {
    let _ = rt.write_all(text);
}

// A print is in order if the label may be printed; a void always is.
fn in_order(cartons: usize, log: &[u8], action: usize) -> bool
    requires { Kept cartons log.now × (action ≤ void_of cartons) }
    ensures { (result ≡ true) ↔ InOrder cartons log.now action }
{
    if cartons <= action {
        return true;
    }
    desk::may_print(cartons, log, action + 1).unwrap_or(false)
}

// The label that comes next, if not all are out.
fn next(cartons: usize, log: &[u8]) -> Option<usize>
    requires { Kept cartons log.now }
    ensures { NextIs cartons log.now result }
{
    desk::lowest(cartons, log).unwrap_or(None)
}

fn say_next(rt: &impl Print, next: Option<usize>) {
    match next {
        Some(label) => {
            let _ = println!(rt; "next is {label}");
        }
        None => say(rt, b"all are out\n"),
    }
}

// One line, put to the log and answered; how many steps the log has then. What is no entry, or finds the log full, is not put to it.
fn heard(rt: &impl Print, cartons: usize, log: &mut [u8], steps: usize, line: &[u8]) -> usize
    requires { (length log.old ≡ step_limit) × (steps ≤ step_limit) × Kept cartons (take steps log.old) }
    ensures { (length log.new ≡ step_limit) × (result ≤ step_limit) × Kept cartons (take result log.new) }
{
    let Some(action) = entry::action(cartons, line) else {
        say(rt, b"not counted: neither a label nor void\n");
        return steps;
    };
    if LOG_LIMIT <= steps {
        say(rt, b"not counted: the log is full\n");
        return steps;
    }
    if in_order(cartons, &log[..steps], action) {
        say(rt, b"in order, ");
    } else {
        say(rt, b"out of order, ");
    }
    log[steps] = action as u8;
    let after = steps + 1;
    say_next(rt, next(cartons, &log[..after]));
    after
}

// Line by line to the end of input, or to a byte that cannot be read. The program has no heap, so a line is kept in a room with its length beside it.
fn listen(rt: &(impl Input + Print), cartons: usize)
    requires { (1 ≤ cartons) × (cartons ≤ carton_limit) }
{
    let mut log = [0u8; LOG_LIMIT];
    let mut steps = 0;
    let mut line = [0u8; LINE_ROOM];
    let mut n = 0;
    for byte in rt.reader().bytes() {
        let Ok(b) = byte else {
            break;
        };
        if b == b'\n' {
            steps = heard(rt, cartons, &mut log, steps, &line[..n]);
            n = 0;
        } else if n < LINE_ROOM {
            line[n] = b;
            n += 1;
        }
    }
    if n > 0 {
        heard(rt, cartons, &mut log, steps, &line[..n]);
    }
}

fn main(rt: HostRuntime) {
    let mut word = [0u8; WORD_ROOM];
    let n = rt.arg(1, &mut word).unwrap_or(0);
    match entry::label(CARTON_LIMIT, &word[..n]) {
        Some(cartons) => listen(&rt, cartons),
        None => say(&rt, b"refused=3\n"),
    }
}
