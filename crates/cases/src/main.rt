#![tactic(auto)]
// Runs every row of one table of sheets, and says of each whether it is answered as the row says. The table comes on standard input: first a sheet, then
// rows. A row is a line `# NAME`, which names the sentence that it shows; lines `NN:TEXT`, which stand in the place of the sheet's line NN, and `NN-`, which
// leaves that line out (a text that ends in `\` has no LF, and the sheet ends there); and lines `> TEXT`, the answer.
mod lines; // lines.rt: the lines of the table
mod build; // build.rt: the sheet and the answer of a row

ghost use Rattle.std.specs.Prelude.{◌≤◌, length, IfOk};

use answer::ANSWER_ROOM;
use lines::{behind_mark, first_line, until_row};
use std::io;
use std::io::Read;

// So much of a table is read.
const TABLE_ROOM: usize = 65536;

// What is said of a row.
fn report(rt: &impl Print, name: &[u8], want: &[u8], got: &[u8]) -> io::Result<()> {
    rt.write_all(name)?;
    if want == got {
        return rt.write_all(b": ok\n");
    }
    rt.write_all(b": differs, and gives\n")?;
    rt.write_all(got)
}

// The row of this name, whose lines these are, and `behind` the table from them on.
fn row(rt: &impl Print, table: &[u8], name: &[u8], lines: &[u8], behind: &[u8]) -> io::Result<()>
    requires { length lines.now ≤ length behind.now }
{
    let mut sheet = [0u8; 8192];
    let n = build::sheet(table, lines, behind, &mut sheet);
    let mut out = [0u8; ANSWER_ROOM];
    let count = answer::answer(&sheet[..n], &mut out);
    let mut want = [0u8; 4096];
    let m = build::answer(lines, &mut want);
    report(rt, name, &want[..m], &out[..count])
}

// Every row.
fn rows(rt: &impl Print, table: &[u8]) -> io::Result<()> {
    let (_, mut rest) = until_row(table);
    // it counts nothing: a row tells where the next one begins
    while !rest.is_empty() {
        let (mark, behind) = first_line(rest);
        let (lines, next) = until_row(behind);
        row(rt, table, behind_mark(mark), lines, behind)?;
        rest = next;
    }
    Ok(())
}

// Reads to the end of the buffer or of the input: how many bytes those are. jobsheet has a function like this one; there a read that fails ends the input, and
// here the program. The loop counts no index: a read gives as many bytes as have come. None is made where the buffer is full, since it could fail.
fn read_full(input: &mut impl Read, buffer: &mut [u8]) -> io::Result<usize>
    ensures { IfOk result (λ n. n ≤ length buffer.new) }
{
    let mut n = 0;
    while n < buffer.len() {
        match input.read(&mut buffer[n..])? {
            0 => break,
            more => n += more,
        }
    }
    Ok(n)
}

fn main(rt: HostRuntime) -> io::Result<()> {
    let mut table = [0u8; TABLE_ROOM];
    let n = read_full(&mut rt.reader(), &mut table)?;
    rows(&rt, &table[..n])
}
