#![tactic(auto)]
// Runs the desk's two calls on a table of cases and compares number and slot, which holds 99 before the answer is told. The exported functions are for C programs
// alone to link; here the answer is told as there. One line a case.
use exported::{told, verdict_told};
use std::io;

// `rule_cases` has the same: four lines for the tests' output are no crate.
fn verdict(rt: &impl Print, good: bool, name: &str) -> io::Result<()> {
    let word = if good { "ok" } else { "WRONG" };
    println!(rt; "{word} {name}")
}

// One question about a label: the call's input, then the number and what the slot holds.
fn print(
    rt: &impl Print,
    name: &str,
    cartons: usize,
    log: &[u8],
    label: usize,
    number: u8,
    slot: u8,
) -> io::Result<()> {
    let mut yes = 99u8;
    let given = verdict_told(desk::may_print(cartons, log, label), &mut yes);
    verdict(rt, given == number && yes == slot, name)
}

// The lowest label: the same.
fn lowest(
    rt: &impl Print,
    name: &str,
    cartons: usize,
    log: &[u8],
    number: u8,
    slot: usize,
) -> io::Result<()> {
    let mut label = 99usize;
    let first = desk::lowest(cartons, log).map(|first| first.unwrap_or(0));
    let given = told(first, 0, &mut label);
    verdict(rt, given == number && label == slot, name)
}

fn three_cartons(rt: &impl Print) -> io::Result<()> {
    lowest(rt, "no step: lowest 1", 3, b"", 0, 1)?;
    print(rt, "no step: label 1", 3, b"", 1, 0, 1)?;
    print(rt, "no step: label 2", 3, b"", 2, 0, 0)?;
    print(rt, "1, 2: label 3", 3, b"\x00\x01", 3, 0, 1)?;
    lowest(rt, "1, 2: lowest 3", 3, b"\x00\x01", 0, 3)?;
    print(
        rt,
        "2, 1: label 3, a forced print counts",
        3,
        b"\x01\x00",
        3,
        0,
        1,
    )?;
    print(rt, "1, 2, void: label 2", 3, b"\x00\x01\x03", 2, 0, 0)?;
    lowest(rt, "1, 2, void: lowest 1", 3, b"\x00\x01\x03", 0, 1)?;
    lowest(rt, "1, 2, 3: all are out", 3, b"\x00\x01\x02", 0, 0)?;
    print(rt, "1, 2, 3: label 2 again", 3, b"\x00\x01\x02", 2, 0, 1)?;
    lowest(rt, "3: lowest 1", 3, b"\x02", 0, 1)?;
    print(rt, "void, 1: label 2", 3, b"\x03\x00", 2, 0, 1)?;
    Ok(())
}

fn many_cartons(rt: &impl Print) -> io::Result<()> {
    let all = [0u8, 1, 2, 3, 4, 5, 6, 7, 8, 9, 10, 11, 12, 13, 14, 15];
    let labels = &all[..];
    lowest(rt, "16 cartons, sixteen labels out", 16, labels, 0, 0)?;
    print(
        rt,
        "16 cartons, sixteen out: label 16",
        16,
        labels,
        16,
        0,
        1,
    )?;
    lowest(rt, "16 cartons, fifteen out", 16, &labels[..15], 0, 16)?;
    print(
        rt,
        "16 cartons, fifteen out: label 16",
        16,
        &labels[..15],
        16,
        0,
        1,
    )?;
    print(
        rt,
        "16 cartons, fourteen out: label 16",
        16,
        &labels[..14],
        16,
        0,
        0,
    )?;
    lowest(rt, "1 carton: void", 1, b"\x00\x01", 0, 1)?;
    Ok(())
}

fn refusals(rt: &impl Print) -> io::Result<()> {
    let long = [0u8; 64];
    let wild = [4u8; 64];
    print(rt, "no carton", 0, b"", 1, 3, 0)?;
    lowest(rt, "no carton: lowest", 0, b"", 3, 0)?;
    print(rt, "17 cartons", 17, b"", 1, 3, 0)?;
    lowest(rt, "17 cartons: lowest", 17, b"", 3, 0)?;
    print(rt, "label 0", 3, b"", 0, 3, 0)?;
    print(rt, "label 4 of 3", 3, b"", 4, 3, 0)?;
    print(rt, "action 4 of 3", 3, b"\x00\x04", 1, 5, 0)?;
    lowest(rt, "action 4 of 3: lowest", 3, b"\x00\x04", 5, 0)?;
    print(rt, "63 steps", 3, &long[1..], 2, 0, 1)?;
    lowest(rt, "63 steps: lowest", 3, &long[1..], 0, 2)?;
    print(rt, "64 steps", 3, &long, 2, 5, 0)?;
    lowest(rt, "64 steps: lowest", 3, &long, 5, 0)?;
    print(rt, "3 before 5: label", 3, &wild, 4, 3, 0)?;
    lowest(rt, "3 before 5: cartons", 0, &wild, 3, 0)?;
    Ok(())
}

fn main(rt: HostRuntime) -> io::Result<()> {
    three_cartons(&rt)?;
    many_cartons(&rt)?;
    refusals(&rt)
}
