// The lines of a table.
ghost use Rattle.std.specs.Prelude.{◌≡◌, ◌+◌, ◌≤◌, ◌<◌, length};

// The first line, without its LF, and what stands behind it.
pub(crate) fn first_line(text: &[u8]) -> (&[u8], &[u8])
    requires { 0 < length text.now }
    ensures { length result.1.now < length text.now }
{
    match text.iter().position(|b| *b == b'\n') {
        Some(end) => (&text[..end], &text[end + 1..]),
        None => (text, b""),
    }
}

// The text of a line that has a mark and a space in front of it, or any byte in the place of the space.
pub(crate) fn behind_mark(line: &[u8]) -> &[u8]
    ensures { length result.now ≤ length line.now }
{
    line.get(2..).unwrap_or(b"")
}

// What stands before the first line of a row, and from it on.
pub(crate) fn until_row(text: &[u8]) -> (&[u8], &[u8])
    ensures { length result.0.now + length result.1.now ≡ length text.now }
{
    let mut end = 0;
    for line in text.split_inclusive(|b| *b == b'\n') {
        if line.starts_with(b"#") {
            break;
        }
        end += line.len();
    }
    text.split_at(end)
}
