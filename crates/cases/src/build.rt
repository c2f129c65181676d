// What a row gives: its sheet, from the table's first lines and the row's own, and its answer. What goes beyond the lent room is left out.
ghost use Rattle.std.specs.Prelude.{◌≡◌, ◌≤◌, ◌<◌, length, take};

use crate::lines::behind_mark;

// What a line of a row puts in the place of a line of the sheet. With the last the sheet ends.
enum Edit<'a> {
    Line(&'a [u8]),
    Last(&'a [u8]),
}

// A text behind what is there.
fn append(out: &mut [u8], n: usize, text: &[u8]) -> usize
    requires { n ≤ length out.old }
    ensures { result ≤ length out.old }
{
    let count = text.len().min(out.len() - n);
    out[n..n + count].copy_from_slice(&text[..count]);
    n + count
}

// What the first line puts there, if it has this number. Any byte but `-` is a mark, even an LF: the text is then the line behind it, be that of the next row.
// So it is lent all of the table from the line on.
fn edit_of<'a>(table: &'a [u8], k: u8) -> Option<Edit<'a>>
    requires { k < 100 }
{
    let marked = table.strip_prefix(&[b'0' + k / 10, b'0' + k % 10])?;
    let (mark, from_text) = marked.split_first()?;
    if *mark == b'-' {
        return Some(Edit::Line(b""));
    }
    let text = from_text
        .split_inclusive(|b| *b == b'\n')
        .next()
        .unwrap_or(b"");
    let bare = text.strip_suffix(b"\n".as_slice()).unwrap_or(text);
    match bare.strip_suffix(b"\\".as_slice()) {
        Some(last) => Some(Edit::Last(last)),
        None => Some(Edit::Line(text)),
    }
}

// The sheet of the row that has these lines: the table's first eleven lines, but for those that the row has others for, or none, and a twelfth if the row has
// one. `behind` is the table from the row's lines on.
pub(crate) fn sheet(table: &[u8], row: &[u8], behind: &[u8], out: &mut [u8]) -> usize
    requires { length row.now ≤ length behind.now }
    ensures { (result ≤ length out.new) × (result ≡ length (take result out.new)) }
{
    let mut n = 0;
    let mut lines = table.split_inclusive(|b| *b == b'\n').take(11);
    for k in 1..=12 {
        let mut kept = lines.next();
        let mut rest = behind;
        for line in row.split_inclusive(|b| *b == b'\n') {
            match edit_of(rest, k) {
                Some(Edit::Line(text)) => {
                    kept = None;
                    n = append(out, n, text);
                }
                Some(Edit::Last(text)) => return append(out, n, text),
                None => {}
            }
            rest = &rest[line.len()..];
        }
        if let Some(line) = kept {
            n = append(out, n, line);
        }
    }
    n
}

// The answer of the row.
pub(crate) fn answer(row: &[u8], out: &mut [u8]) -> usize
    ensures { (result ≤ length out.new) × (result ≡ length (take result out.new)) }
{
    let mut n = 0;
    for line in row.split_inclusive(|b| *b == b'\n') {
        if line.starts_with(b">") {
            n = append(out, n, behind_mark(line));
        }
    }
    n
}
