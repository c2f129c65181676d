// One call and what it answers, written as a line.
ghost use Rattle.std.specs.Prelude.{◌≤◌, length};

use finish::finish;
use refusal::Refusal;
use std::io;
use theory::rows::{PLAIN_STRIDE, plain_row};
use theory::{ACTION_LIMIT, Asked, STRIDE, Setting};

// Room for the masks of as many actions as there may be: fixed, as a program without a heap has it.
const TABLE_ROOM: usize = STRIDE * ACTION_LIMIT;

// A number below a hundred, in two digits.
fn two(rt: &impl Print, n: u8) -> io::Result<()> {
    let digits = [b'0' + n / 10, b'0' + n % 10];
    rt.write_all(&digits)
}

// These actions, two digits each.
fn actions_of(rt: &impl Print, actions: &[u8]) -> io::Result<()> {
    for action in actions {
        two(rt, *action)?;
    }
    Ok(())
}

// A refusal's number, or the sequence; and then whatever of the output was not written.
fn answer_of(rt: &impl Print, answer: Result<usize, Refusal>, out: &[u8]) -> io::Result<()> {
    match answer {
        Err(why) => {
            rt.write_all(b"refused ")?;
            two(rt, u8::from(why))?;
            rt.write_all(b" [")?;
            rt.write_all(out)?;
        }
        Ok(count) => {
            let (sequence, rest) = out.split_at(count.min(out.len()));
            rt.write_all(b"\"")?;
            actions_of(rt, sequence)?;
            rt.write_all(b"\" [")?;
            rt.write_all(rest)?;
        }
    }
    rt.write_all(b"]\n")
}

// A number that is written only where it is not 0, behind its name.
fn named(rt: &impl Print, name: &[u8], n: usize) -> io::Result<()> {
    if 0 < n && n < 100 {
        rt.write_all(name)?;
        two(rt, n as u8)?;
    }
    Ok(())
}

// The call, and its answer as a line, where a variable has so many values, 0 for a call without variables, and tests inside a walk are read so, 0 for `step`.
fn call(rt: &impl Print, asked: Asked, job: &[u8], more: usize, out: &mut [u8]) -> io::Result<()> {
    rt.write_all(b"log=")?;
    actions_of(rt, asked.log)?;
    rt.write_all(b" job=")?;
    rt.write_all(job)?;
    named(rt, b" domain=", asked.setting.counts.domain)?;
    named(rt, b" reading=", asked.setting.reading)?;
    rt.write_all(b": ")?;
    let answer = finish(asked, job, more, out);
    answer_of(rt, answer, out)
}

// Document 01's four masks an action as the table of a call, which is empty where there is no room for them.
fn widen<'a>(four: &[u32], table: &'a mut [u32; TABLE_ROOM]) -> &'a [u32]
    ensures { length result.now ≤ length table.old }
{
    let actions = four.len() / PLAIN_STRIDE;
    if ACTION_LIMIT < actions {
        return &[];
    }
    for a in 0..actions {
        let from = PLAIN_STRIDE * a;
        let row = &four[from..from + PLAIN_STRIDE];
        plain_row(table, a, row[0], row[1], row[2], row[3]);
    }
    &table[..STRIDE * actions]
}

// A call whose output is this one, and whose theory has four masks an action.
pub(crate) fn run_into(
    rt: &impl Print,
    fluents: usize,
    actions: usize,
    domain: usize,
    start: u32,
    four: &[u32],
    log: &[u8],
    job: &[u8],
    more: usize,
    out: &mut [u8],
) -> io::Result<()> {
    let setting = Setting::of(fluents, actions, domain, start, 0);
    let mut table = [0u32; TABLE_ROOM];
    let masks = widen(four, &mut table);
    let asked = Asked {
        setting,
        masks,
        log,
    };
    call(rt, asked, job, more, out)
}

// The same with room for the longest sequence; without variables, and with them.
pub(crate) fn run(
    rt: &impl Print,
    fluents: usize,
    actions: usize,
    start: u32,
    four: &[u32],
    log: &[u8],
    job: &[u8],
    more: usize,
) -> io::Result<()> {
    run_over(rt, fluents, actions, 0, start, four, log, job, more)
}

pub(crate) fn run_over(
    rt: &impl Print,
    fluents: usize,
    actions: usize,
    domain: usize,
    start: u32,
    four: &[u32],
    log: &[u8],
    job: &[u8],
    more: usize,
) -> io::Result<()> {
    let mut out = [b'.'; 6];
    run_into(
        rt, fluents, actions, domain, start, four, log, job, more, &mut out,
    )
}

// The same where tests inside a walk are read so.
pub(crate) fn run_read(
    rt: &impl Print,
    fluents: usize,
    actions: usize,
    reading: usize,
    four: &[u32],
    log: &[u8],
    job: &[u8],
    more: usize,
) -> io::Result<()> {
    let setting = Setting::of(fluents, actions, 0, 0, reading);
    let mut table = [0u32; TABLE_ROOM];
    let masks = widen(four, &mut table);
    let asked = Asked {
        setting,
        masks,
        log,
    };
    let mut out = [b'.'; 6];
    call(rt, asked, job, more, &mut out)
}

// A call with a table as it stands.
pub(crate) fn run_table(
    rt: &impl Print,
    fluents: usize,
    actions: usize,
    start: u32,
    masks: &[u32],
    log: &[u8],
    job: &[u8],
    more: usize,
) -> io::Result<()> {
    let setting = Setting::of(fluents, actions, 0, start, 0);
    let asked = Asked {
        setting,
        masks,
        log,
    };
    let mut out = [b'.'; 6];
    call(rt, asked, job, more, &mut out)
}
