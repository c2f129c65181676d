// Readers: each looks at the bytes of a text and says what stands there. Knows no line's meaning.
ghost use Rattle.std.specs.Prelude.{◌≡◌, ◌↔◌, true, ◌++◌, ◌+◌, ◌≤◌, ◌<◌, ◌^◌, length, take, drop};
ghost use Rattle.spelling.specs.Scan.{stretch, FirstLf, DigitOf, NumberAsked, DigitsOf, NumberAt};

// The key stands at this place.
pub fn opens_with(text: &[u8], at: usize, key: &[u8]) -> bool
    requires { at ≤ length text.now }
    ensures { (result ≡ true) ↔ (drop at text.now ≡ key.now ++ drop (at + length key.now) text.now) }
{
    text[at..].starts_with(key)
}

// Where the line ends: the first LF from this place on, or the text's end.
pub fn find_lf(text: &[u8], from: usize) -> usize
    requires { from ≤ length text.now }
    ensures { FirstLf text.now from result }
{
    match text[from..].iter().position(|byte| *byte == b'\n') {
        Some(passed) => from + passed,
        None => text.len(),
    }
}

// The hex digit that a byte is, if it is one. An upper-case letter is none.
fn digit_of(byte: u8) -> Option<u32>
    ensures { DigitOf byte result }
{
    match byte {
        b'0'..=b'9' => Some(u32::from(byte - b'0')),
        b'a'..=b'f' => Some(u32::from(byte - b'a') + 10),
        _ => None,
    }
}

// The number that so many digits from this place on are.
pub fn number_at(text: &[u8], at: usize, width: usize, base: u32) -> Option<u32>
    requires { NumberAsked text.now at width base }
    ensures { DigitsOf base width (take width (drop at text.now)) result }
{
    let mut n = 0;
    for byte in &text[at..at + width] {
        let d = digit_of(*byte)?;
        if base <= d {
            return None;
        }
        n = n * base + d;
    }
    Some(n)
}

// The number that a whole stretch is, if it has so many digits.
pub fn number_in(text: &[u8], start: usize, end: usize, width: usize, base: u32) -> Option<u32>
    requires { (start ≤ end) × (end ≤ length text.now) × (0 < base) × (base ≤ 16) × (base ^ width ≤ 2 ^ 32) }
    ensures { DigitsOf base width (stretch text.now start end) result }
{
    if end - start != width {
        return None;
    }
    number_at(text, start, width, base)
}

// The number whose two decimal digits stand at this place. Any place may be asked about, where `number_at` wants the digits there.
pub fn two_digits(text: &[u8], at: usize) -> Option<u32>
    ensures { NumberAt text.now at result }
{
    match text.get(at..)? {
        [tens @ b'0'..=b'9', ones @ b'0'..=b'9', ..] => {
            Some(u32::from(tens - b'0') * 10 + u32::from(ones - b'0'))
        }
        _ => None,
    }
}
