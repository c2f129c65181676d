#![tactic(auto)]
// The finish rows of document 01 that are not P, the paper's coffee delivery (Example 12), the limits and the refusals, and jobs with variables (document 02, Q-2): a line for each
// call, with its answer and what is left of an output of dots.
mod show;

use show::{run, run_into, run_over, run_read, run_table};
use std::io;

// The theory of document 01's examples.
const LABELS: [u32; 12] = [0, 0, 1, 0, 1, 0, 2, 0, 0, 0, 0, 3];

// Coffee: fluents 00, 01, 02 are being at Giuseppe's, at Yves's, at Eugenia's, 03 in the coffee room; 00, 01, 02 go to an office, 03, 04, 05 deliver there, 06 waits.
const COFFEE: [u32; 28] = [
    0, 1, 1, 14, 0, 2, 2, 13, 0, 4, 4, 11, 1, 0, 0, 0, 2, 0, 0, 0, 4, 0, 0, 0, 0, 0, 0, 0,
];

// 00 and 01 are alike; 02 and 03 too, but that fluent 00 bars 02; 04 wants fluent 01, puts 02 and drops 00.
const ALIKE: [u32; 20] = [0, 0, 1, 0, 0, 0, 1, 0, 0, 1, 2, 0, 0, 0, 2, 0, 2, 0, 4, 1];

// Fluent 00 is that the carton is open. 00 puts label 01 only then, 01 closes the carton, 02 opens it.
const OPEN: [u32; 30] = [
    0, 0, 1, 0, 2, 0, 0, 0, 0, 0, 0, 0, 0, 0, 0, 1, 0, 0, 0, 0, 0, 0, 0, 0, 1, 0, 0, 0, 0, 0,
];

// 00 puts fluent 01 when 00 is on, 01 puts it unless 00 is on, in its second clause; 02 drops 00 in its first and puts 02 in its second when 00 is on.
const CLAUSES: [u32; 30] = [
    0, 0, 1, 0, 2, 0, 0, 0, 0, 0, 0, 0, 0, 0, 0, 0, 0, 1, 2, 0, 0, 0, 0, 0, 0, 1, 1, 0, 4, 0,
];

fn labels(rt: &impl Print) -> io::Result<()> {
    rt.write_all(b"document 01\n")?;
    run(rt, 2, 3, 0, &LABELS, b"\x00", b";a00|a02a00", 1)?;
    run(rt, 2, 3, 0, &LABELS, b"\x00", b";a00*?1", 0)?;
    run(rt, 2, 3, 0, &LABELS, b"\x01", b";a00a01", 6)?;
    run(
        rt,
        2,
        3,
        0,
        &LABELS,
        b"\x00\x01\x02\x00",
        b";a00;a01;a02;a00a01",
        2,
    )?;
    Ok(())
}

fn lengths(rt: &impl Print) -> io::Result<()> {
    rt.write_all(b"finished already\n")?;
    run(rt, 2, 3, 0, &LABELS, b"\x00\x01", b";a00a01", 6)?;
    rt.write_all(b"six actions, and a bound of five\n")?;
    run(rt, 2, 3, 0, &LABELS, b"", b";a00;a01;a02;a00;a01a02", 6)?;
    run(rt, 2, 3, 0, &LABELS, b"", b";a00;a01;a02;a00;a01a02", 5)?;
    Ok(())
}

// "never delivers to the same office twice": the executions that the paper lists are finished as they stand.
fn listed(rt: &impl Print) -> io::Result<()> {
    let deliver = b"*|;?!<-;a03*n1;a00a03|;?!<-;a04*n1;a01a04;?!<-;a05*n1;a02a05";
    rt.write_all(b"coffee: the paper's executions\n")?;
    run(rt, 4, 7, 8, &COFFEE, b"", deliver, 6)?;
    run(rt, 4, 7, 8, &COFFEE, b"\x00\x03", deliver, 6)?;
    run(rt, 4, 7, 8, &COFFEE, b"\x00\x03\x01\x04", deliver, 6)?;
    run(
        rt,
        4,
        7,
        8,
        &COFFEE,
        b"\x00\x03\x01\x04\x02\x05",
        deliver,
        6,
    )?;
    run(rt, 4, 7, 8, &COFFEE, b"\x00\x03\x02\x05", deliver, 6)?;
    Ok(())
}

fn not_listed(rt: &impl Print) -> io::Result<()> {
    let deliver = b"*|;?!<-;a03*n1;a00a03|;?!<-;a04*n1;a01a04;?!<-;a05*n1;a02a05";
    rt.write_all(b"coffee: on the way, twice, and not there\n")?;
    run(rt, 4, 7, 8, &COFFEE, b"\x01", deliver, 6)?;
    run(
        rt,
        4,
        7,
        8,
        &COFFEE,
        b"\x00\x03\x01\x04\x00\x03",
        deliver,
        6,
    )?;
    run(rt, 4, 7, 8, &COFFEE, b"\x03", deliver, 6)?;
    Ok(())
}

// Example 4: the same, and at the end some offices, or all, have coffee.
fn every_office(rt: &impl Print) -> io::Result<()> {
    rt.write_all(b"coffee: who has it at the end\n")?;
    run(
        rt,
        4,
        7,
        8,
        &COFFEE,
        b"",
        b";*|;?!<-;a03*n1;a00a03|;?!<-;a04*n1;a01a04;?!<-;a05*n1;a02a05?&<-;a03*n1<-;a05*n1",
        6,
    )?;
    run(
        rt,
        4,
        7,
        8,
        &COFFEE,
        b"",
        b";*|;?!<-;a03*n1;a00a03|;?!<-;a04*n1;a01a04;?!<-;a05*n1;a02a05?&<-;a03*n1&<-;a04*n1<-;a05*n1",
        6,
    )?;
    run(
        rt,
        4,
        7,
        8,
        &COFFEE,
        b"\x02\x05",
        b";*|;?!<-;a03*n1;a00a03|;?!<-;a04*n1;a01a04;?!<-;a05*n1;a02a05?&<-;a03*n1&<-;a04*n1<-;a05*n1",
        6,
    )?;
    Ok(())
}

// A smaller action stands in for one that is alike, where the job names neither: not one with another ban, and not where a test tells them apart.
fn stand_ins(rt: &impl Print) -> io::Result<()> {
    rt.write_all(b"stand-ins\n")?;
    run(rt, 3, 5, 0, &ALIKE, b"", b";*n?f00", 6)?;
    run(rt, 3, 5, 0, &ALIKE, b"", b";n?!<-a001", 6)?;
    run(rt, 3, 5, 0, &ALIKE, b"", b";n?!<-a011", 6)?;
    run(rt, 3, 5, 0, &ALIKE, b"", b";*n?f02", 6)?;
    run(rt, 3, 5, 1, &ALIKE, b"", b";*n?f02", 6)?;
    run(rt, 3, 5, 0, &ALIKE, b"\x01", b";*n?f02", 6)?;
    run(rt, 3, 5, 0, &ALIKE, b"", b";*n?&f00f02", 6)?;
    run(rt, 3, 5, 0, &ALIKE, b"", b";*n;a04;a04;a04;a04a04", 6)?;
    run(rt, 3, 5, 0, &ALIKE, b"", b";*n;a04;a04;a04;a04a04", 5)?;
    Ok(())
}

// Log and sequence together have at most 63 actions.
fn limits(rt: &impl Print) -> io::Result<()> {
    let long = [0u8; 64];
    rt.write_all(b"logs of 62, 63 and 64\n")?;
    run(rt, 2, 3, 0, &LABELS, &long[..62], b";*na01", 6)?;
    run(rt, 2, 3, 0, &LABELS, &long[..62], b";*n;a01a02", 6)?;
    run(rt, 2, 3, 0, &LABELS, &long[..63], b";*na01", 6)?;
    run(rt, 2, 3, 0, &LABELS, &long[..63], b"*n", 6)?;
    run(rt, 2, 3, 0, &LABELS, &long, b"*n", 6)?;
    Ok(())
}

// A leading `*n` tries nothing that cannot be as long as the labels missing: actions that can always be taken and do nothing.
fn any_first(rt: &impl Print) -> io::Result<()> {
    let masks = [0u32; 256];
    let log = [9u8; 50];
    let void = b";*n;a05;a00;a01;a02;a03a04";
    rt.write_all(b"any steps first: 16, 24 and 64 actions\n")?;
    run(rt, 0, 16, 0, &masks[..64], b"\x00\x01", void, 6)?;
    run(rt, 0, 24, 0, &masks[..96], b"\x00\x01", void, 6)?;
    run(rt, 0, 64, 0, &masks, b"\x00\x01", void, 6)?;
    run(rt, 0, 64, 0, &masks, &log, b";*n;a50;a51;a52;a53;a54a55", 6)?;
    run(rt, 0, 64, 0, &masks, &log, b";*n;a50;a51;a52;a53;a54a55", 5)?;
    Ok(())
}

// A test that no action can make true, and one that is true already.
fn never_true(rt: &impl Print) -> io::Result<()> {
    let masks = [0u32; 256];
    rt.write_all(b"tests that cannot come true\n")?;
    run(rt, 1, 64, 0, &masks, b"", b";*n?f00", 6)?;
    run(rt, 1, 64, 1, &masks, b"", b";*n?!f00", 6)?;
    run(rt, 1, 64, 1, &masks, b"", b";*n;?f00;a60a61", 6)?;
    run(rt, 1, 64, 0, &masks, b"", b";*n|;?f00;a60a61;a62a63", 6)?;
    Ok(())
}

fn bad_world(rt: &impl Print) -> io::Result<()> {
    rt.write_all(b"refusals 3, 4 and 5\n")?;
    run(rt, 2, 3, 0, &LABELS, b"", b"n", 7)?;
    run(rt, 33, 3, 0, &LABELS, b"", b"n", 6)?;
    run(rt, 2, 0, 0, &LABELS, b"", b"n", 6)?;
    run(rt, 2, 2, 0, &LABELS, b"", b"n", 6)?;
    run(rt, 2, 3, 4, &LABELS, b"", b"n", 6)?;
    run(rt, 2, 3, 0, &LABELS, b"\x03", b"n", 6)?;
    Ok(())
}

fn bad_job(rt: &impl Print) -> io::Result<()> {
    let masks = [0u32; 4];
    rt.write_all(b"refusals 6 to 9\n")?;
    run(rt, 2, 3, 0, &LABELS, b"", b"", 6)?;
    run(rt, 2, 3, 0, &LABELS, b"", b"nn", 6)?;
    run(rt, 2, 3, 0, &LABELS, b"", b"a03", 6)?;
    run(rt, 0, 1, 0, &masks, b"", b"?f00", 6)?;
    run(rt, 2, 3, 0, &LABELS, b"", b"************************n", 6)?;
    run(rt, 2, 3, 0, &LABELS, b"", b"u", 6)?;
    Ok(())
}

fn short_output(rt: &impl Print) -> io::Result<()> {
    let mut short = [b'.'; 5];
    rt.write_all(b"12 before 11\n")?;
    run_into(rt, 2, 3, 0, 0, &LABELS, b"\x01", b";a00a01", 6, &mut short)?;
    run_into(rt, 2, 3, 0, 0, &LABELS, b"\x01", b";a00a01", 5, &mut short)?;
    run_into(rt, 2, 3, 0, 0, &LABELS, b"", b";a00a01", 5, &mut short)?;
    Ok(())
}

// Document 02, Q-2. An inner binding hides an outer one; 9 before 13.
fn variables(rt: &impl Print) -> io::Result<()> {
    rt.write_all(b"some carton\n")?;
    run_over(rt, 2, 3, 3, 0, &LABELS, b"", b"pvb00v", 1)?;
    run_over(rt, 2, 3, 2, 0, &LABELS, b"", b"pvb01v", 6)?;
    run_over(rt, 2, 3, 2, 0, &LABELS, b"", b"pv;b00vb01v", 6)?;
    run_over(rt, 2, 3, 2, 0, &LABELS, b"", b"pv;b01vpvb00v", 6)?;
    run_over(rt, 2, 3, 2, 0, &LABELS, b"", b"s00v", 6)?;
    run_over(rt, 2, 3, 2, 0, &LABELS, b"", b"pvs00v", 6)?;
    run_over(rt, 2, 3, 3, 0, &LABELS, b"", b"pv?<s00v1", 6)?;
    Ok(())
}

// A sum may name any action, so that no smaller one stands in for another; a test over all values is not true where no value makes it so.
fn sums(rt: &impl Print) -> io::Result<()> {
    let masks = [0u32; 256];
    rt.write_all(b"some carton: stand-ins, lengths and tests\n")?;
    run_over(rt, 3, 5, 1, 0, &ALIKE, b"", b";n?<pvs01v1", 6)?;
    run_over(rt, 3, 5, 2, 0, &ALIKE, b"", b";*n?evg01v", 6)?;
    run_over(rt, 3, 5, 1, 0, &ALIKE, b"", b";*n?evg02v", 6)?;
    run_over(
        rt,
        0,
        64,
        14,
        0,
        &masks,
        b"\x00",
        b";*npv;b50v;b50v;b50v;b50v;b50vb50v",
        6,
    )?;
    run_over(
        rt,
        0,
        64,
        14,
        0,
        &masks,
        b"\x00",
        b";*npv;b50v;b50v;b50v;b50v;b50vb50v",
        5,
    )?;
    run_over(rt, 1, 64, 2, 0, &masks, b"", b";*n;?evf00pvb00v", 6)?;
    Ok(())
}

fn bad_variables(rt: &impl Print) -> io::Result<()> {
    let mut short = [b'.'; 5];
    rt.write_all(b"some carton: refusals 3, 6, 7 and 13, and 13 before 12\n")?;
    run_over(rt, 2, 3, 17, 0, &LABELS, b"", b"pvb00v", 6)?;
    run_over(rt, 2, 3, 0, 0, &LABELS, b"", b"pvb00v", 6)?;
    run_over(rt, 2, 3, 3, 0, &LABELS, b"", b"pvb01v", 6)?;
    run_over(rt, 2, 3, 2, 0, &LABELS, b"", b"b00v", 6)?;
    run_over(rt, 2, 3, 2, 0, &LABELS, b"", b";pvb00vb00v", 6)?;
    run_into(rt, 2, 3, 2, 0, &LABELS, b"", b"b00v", 6, &mut short)?;
    Ok(())
}

// Document 02, Q-6: an action stands in for another only where their clauses act in the same states, and what a clause can turn may still come true.
fn depends(rt: &impl Print) -> io::Result<()> {
    rt.write_all(b"effects that depend\n")?;
    run_table(rt, 2, 3, 1, &OPEN, b"", b";*n?f01", 6)?;
    run_table(rt, 2, 3, 0, &OPEN, b"", b";*n?f01", 6)?;
    run_table(rt, 2, 3, 0, &OPEN, b"", b";*n?f01", 1)?;
    run_table(rt, 2, 3, 1, &OPEN, b"\x01\x00", b";*n?f01", 6)?;
    run_table(rt, 3, 3, 1, &CLAUSES, b"", b";n?f01", 6)?;
    run_table(rt, 3, 3, 0, &CLAUSES, b"", b";n?f01", 6)?;
    run_table(rt, 3, 3, 1, &CLAUSES, b"", b";*n?f02", 6)?;
    run_table(rt, 3, 3, 0, &CLAUSES, b"", b";*n?f02", 6)?;
    run_table(rt, 3, 3, 1, &CLAUSES, b"", b";*n?&!f00f01", 6)?;
    rt.write_all(b"effects that depend: refusals 3 and 4\n")?;
    run_table(rt, 2, 3, 0, &LABELS, b"", b"n", 6)?;
    run_table(rt, 2, 3, 0, &CLAUSES, b"", b"n", 6)?;
    Ok(())
}

// Document 02, Q-7: "A job's own `?T`, outside every `<`, keeps its own position"; one inside a `<` has the outer now under `end`.
fn readings(rt: &impl Print) -> io::Result<()> {
    rt.write_all(b"tests that see the whole log\n")?;
    run_read(rt, 2, 3, 0, &LABELS, b"\x00\x01", b";a00;?<a011a01", 0)?;
    run_read(rt, 2, 3, 1, &LABELS, b"\x00\x01", b";a00;?<a011a01", 0)?;
    run_read(
        rt,
        2,
        3,
        0,
        &LABELS,
        b"\x00\x01",
        b";a00;a01?<-;a00;?<a011a011",
        0,
    )?;
    run_read(
        rt,
        2,
        3,
        1,
        &LABELS,
        b"\x00\x01",
        b";a00;a01?<-;a00;?<a011a011",
        0,
    )?;
    run_read(
        rt,
        2,
        3,
        0,
        &LABELS,
        b"\x00\x01",
        b";a00;?<-;a00?<a0111a01",
        0,
    )?;
    run_read(
        rt,
        2,
        3,
        1,
        &LABELS,
        b"\x00\x01",
        b";a00;?<-;a00?<a0111a01",
        0,
    )?;
    run_read(rt, 2, 3, 0, &LABELS, b"", b";n;n?<-;a00;?<a011a011", 6)?;
    run_read(rt, 2, 3, 1, &LABELS, b"", b";n;n?<-;a00;?<a011a011", 6)?;
    rt.write_all(b"tests that see the whole log: refusal 3\n")?;
    run_read(rt, 2, 3, 2, &LABELS, b"", b"n", 6)?;
    Ok(())
}

fn main(rt: HostRuntime) -> io::Result<()> {
    labels(&rt)?;
    lengths(&rt)?;
    listed(&rt)?;
    not_listed(&rt)?;
    every_office(&rt)?;
    stand_ins(&rt)?;
    limits(&rt)?;
    any_first(&rt)?;
    never_true(&rt)?;
    bad_world(&rt)?;
    bad_job(&rt)?;
    short_output(&rt)?;
    variables(&rt)?;
    sums(&rt)?;
    bad_variables(&rt)?;
    depends(&rt)?;
    readings(&rt)
}
