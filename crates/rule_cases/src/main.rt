#![tactic(auto)]
// Runs the reading of rules on a table of cases and compares: the number and the rest that reading one rule gives, and the number for exactly one
// rule. One line a case; then a table of ends.
use rule::Kind::{Job, Test, Walk};
use rule::{Kind, check_rule, read_rule};
use std::io;
use theory::Counts;

// `desk_cases` has the same: four lines for the tests' output are no crate.
fn verdict(rt: &impl Print, good: bool, name: &str) -> io::Result<()> {
    let word = if good { "ok" } else { "WRONG" };
    println!(rt; "{word} {name}")
}

fn of(fluents: usize, actions: usize, domain: usize) -> Counts {
    Counts::of(fluents, actions, domain)
}

// One row: the call's input, then the number and how many bytes are left over by `read_rule`, and the number by `check_rule`.
fn row(
    rt: &impl Print,
    name: &str,
    text: &[u8],
    kind: Kind,
    counts: Counts,
    read: u8,
    left: usize,
    check: u8,
) -> io::Result<()> {
    let (number, rest) = match read_rule(text, kind, counts) {
        Ok(rest) => (0, rest),
        Err(none) => (u8::from(none.why), none.rest),
    };
    let checked = check_rule(text, kind, counts).err().map_or(0, u8::from);
    verdict(
        rt,
        number == read && rest.len() == left && checked == check,
        name,
    )
}

fn lengths_and_depths(rt: &impl Print) -> io::Result<()> {
    let mut deep = [b'!'; 256];
    deep[255] = b'1';
    let all = &deep[..];
    row(rt, "0 bytes", &all[256..], Test, of(0, 1, 0), 6, 0, 6)?;
    row(rt, "256 bytes", all, Test, of(0, 1, 0), 6, 0, 6)?;
    row(rt, "254 ! and a 1", &all[1..], Test, of(0, 1, 0), 8, 0, 8)?;
    row(rt, "24 ! and a 1", &all[231..], Test, of(0, 1, 0), 8, 0, 8)?;
    row(rt, "23 ! and a 1", &all[232..], Test, of(0, 1, 0), 0, 0, 0)?;
    Ok(())
}

fn names(rt: &impl Print) -> io::Result<()> {
    row(rt, "a6", b"a6", Walk, of(32, 64, 0), 6, 0, 6)?;
    row(
        rt,
        "a64 with 64 actions",
        b"a64",
        Walk,
        of(32, 64, 0),
        7,
        0,
        7,
    )?;
    row(
        rt,
        "a63 with 64 actions",
        b"a63",
        Walk,
        of(32, 64, 0),
        0,
        0,
        0,
    )?;
    row(
        rt,
        "f00 with no fluents",
        b"f00",
        Test,
        of(0, 1, 0),
        7,
        0,
        7,
    )?;
    row(
        rt,
        "f31 with 32 fluents",
        b"f31",
        Test,
        of(32, 1, 0),
        0,
        0,
        0,
    )?;
    Ok(())
}

fn signs(rt: &impl Print) -> io::Result<()> {
    row(
        rt,
        "bytes over 127",
        b"\xc3\xa4",
        Walk,
        of(32, 64, 0),
        6,
        0,
        6,
    )?;
    row(
        rt,
        "a digit where a sign is due",
        b"*7",
        Walk,
        of(32, 64, 0),
        6,
        0,
        6,
    )?;
    row(rt, "a walk for a test", b"n", Test, of(32, 64, 0), 6, 0, 6)?;
    row(rt, "a test for a walk", b"1", Walk, of(32, 64, 0), 6, 0, 6)?;
    Ok(())
}

fn rests(rt: &impl Print) -> io::Result<()> {
    row(
        rt,
        "the second part missing",
        b";a00",
        Walk,
        of(32, 64, 0),
        6,
        0,
        6,
    )?;
    row(rt, "11", b"11", Test, of(0, 1, 0), 0, 1, 6)?;
    row(
        rt,
        "a rest that is no rule",
        b"<-;a00*n1\xff\xff",
        Test,
        of(0, 1, 0),
        0,
        2,
        6,
    )?;
    Ok(())
}

fn jobs(rt: &impl Print) -> io::Result<()> {
    row(rt, "job u", b"u", Job, of(0, 1, 0), 9, 0, 9)?;
    row(rt, "walk u", b"u", Walk, of(0, 1, 0), 0, 0, 0)?;
    row(rt, "job ?<u1", b"?<u1", Job, of(0, 1, 0), 0, 0, 0)?;
    row(
        rt,
        "job with r in a choice",
        b"|a00*r00",
        Job,
        of(0, 1, 0),
        9,
        0,
        9,
    )?;
    row(
        rt,
        "job with a converse",
        b";n-n",
        Job,
        of(0, 1, 0),
        9,
        0,
        9,
    )?;
    Ok(())
}

fn smallest_first(rt: &impl Print) -> io::Result<()> {
    row(rt, "33 fluents", b"a6", Walk, of(33, 64, 0), 3, 0, 3)?;
    row(rt, "no actions", b"1", Test, of(0, 0, 0), 3, 0, 3)?;
    row(rt, "65 actions", b"1", Test, of(0, 65, 0), 3, 0, 3)?;
    row(rt, "7 before 9", b"r05", Job, of(0, 1, 0), 7, 0, 7)?;
    row(
        rt,
        "a rest is found before a name",
        b"a05n",
        Walk,
        of(0, 1, 0),
        7,
        0,
        6,
    )?;
    Ok(())
}

// Document 02, Q-2: the signs of variables.
fn variables(rt: &impl Print) -> io::Result<()> {
    row(
        rt,
        "pvb00v of three actions, 3 values",
        b"pvb00v",
        Walk,
        of(2, 3, 3),
        0,
        0,
        0,
    )?;
    row(
        rt,
        "pvb01v, 2 values",
        b"pvb01v",
        Walk,
        of(2, 3, 2),
        0,
        0,
        0,
    )?;
    row(
        rt,
        "pvb01v, 3 values",
        b"pvb01v",
        Walk,
        of(2, 3, 3),
        7,
        0,
        7,
    )?;
    row(rt, "b00v, 2 values", b"b00v", Walk, of(2, 3, 2), 13, 0, 13)?;
    row(rt, "b00v, no values", b"b00v", Walk, of(2, 3, 0), 6, 0, 6)?;
    row(rt, "b02v, 2 values", b"b02v", Walk, of(2, 3, 2), 7, 0, 7)?;
    row(
        rt,
        "pvb00w, 2 values",
        b"pvb00w",
        Walk,
        of(2, 3, 2),
        13,
        0,
        13,
    )?;
    row(
        rt,
        ";pvb00vb00v, 2 values",
        b";pvb00vb00v",
        Walk,
        of(2, 3, 2),
        13,
        0,
        13,
    )?;
    row(
        rt,
        "pvpw;b00vb00w, 2 values",
        b"pvpw;b00vb00w",
        Walk,
        of(2, 3, 2),
        0,
        0,
        0,
    )?;
    row(
        rt,
        "pvpv;b00vb00v, 3 values",
        b"pvpv;b00vb00v",
        Walk,
        of(2, 3, 3),
        0,
        0,
        0,
    )?;
    row(rt, "a00, 16 values", b"a00", Walk, of(2, 3, 16), 0, 0, 0)?;
    row(rt, "a00, 17 values", b"a00", Walk, of(2, 3, 17), 3, 0, 3)?;
    row(rt, "pza00, 2 values", b"pza00", Walk, of(2, 3, 2), 6, 0, 6)?;
    row(rt, "b0v, 2 values", b"b0v", Walk, of(2, 3, 2), 6, 0, 6)?;
    row(rt, "b00, 2 values", b"b00", Walk, of(2, 3, 2), 6, 0, 6)?;
    row(rt, "v00, 2 values", b"v00", Walk, of(2, 3, 2), 6, 0, 6)?;
    row(
        rt,
        "evg00v, 2 values",
        b"evg00v",
        Test,
        of(2, 3, 2),
        0,
        0,
        0,
    )?;
    row(
        rt,
        "evg00v, 3 values",
        b"evg00v",
        Test,
        of(2, 3, 3),
        7,
        0,
        7,
    )?;
    row(rt, "job s00v, 2 values", b"s00v", Job, of(2, 3, 2), 9, 0, 9)?;
    row(
        rt,
        "job pvs00v, 2 values",
        b"pvs00v",
        Job,
        of(2, 3, 2),
        9,
        0,
        9,
    )?;
    row(
        rt,
        "job pv?<s00v1, 2 values",
        b"pv?<s00v1",
        Job,
        of(2, 3, 2),
        0,
        0,
        0,
    )?;
    row(
        rt,
        "walk -s00v, 1 value",
        b"-s00v",
        Walk,
        of(2, 3, 1),
        13,
        0,
        13,
    )?;
    row(
        rt,
        "pvb00v and a rest",
        b"pvb00vn",
        Walk,
        of(2, 3, 3),
        0,
        1,
        6,
    )?;
    Ok(())
}

// A binder adds one to the depth, a letter nothing.
fn depths_of_variables(rt: &impl Print) -> io::Result<()> {
    let deep = b"!!!!!!!!!!!!!!!!!!!!!!!evg00v";
    let all = &deep[..];
    row(rt, "23 ! before evg00v", all, Test, of(2, 3, 2), 8, 0, 8)?;
    row(
        rt,
        "22 ! before evg00v",
        &all[1..],
        Test,
        of(2, 3, 2),
        0,
        0,
        0,
    )?;
    Ok(())
}

// In -;a00*n the sequence ends with the text, its first part before the star; past the text the table is left.
fn table_of_ends(rt: &impl Print) -> io::Result<()> {
    let mut ends = [99u8; 12];
    grammar::ends::fill_ends(b"-;a00*n", &mut ends);
    verdict(rt, ends[1] == 7, "the sequence ends at 7")?;
    verdict(rt, ends[2] == 5, "its first part ends at 5")?;
    verdict(rt, ends[5] == 7, "its second part ends at 7")?;
    verdict(rt, ends[7] == 7, "the text ends at 7")?;
    verdict(rt, ends[8] == 99, "nothing is written past it")?;
    Ok(())
}

fn main(rt: HostRuntime) -> io::Result<()> {
    lengths_and_depths(&rt)?;
    names(&rt)?;
    signs(&rt)?;
    rests(&rt)?;
    jobs(&rt)?;
    smallest_first(&rt)?;
    variables(&rt)?;
    depths_of_variables(&rt)?;
    table_of_ends(&rt)
}
