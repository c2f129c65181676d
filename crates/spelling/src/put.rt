// Writers: each puts its bytes at a place of the lent output and hands back the place behind them. Knows no sheet.
// Output and place are no struct: each function over one that keeps a lent output would have to promise besides that it is still the same output.
ghost use Rattle.std.specs.Prelude.{◌≡◌, [], ◌∷◌, ◌+◌, ◌*◌, ◌≤◌, ◌<◌, length};
ghost use Rattle.meaning.specs.Rule.{digits};
ghost use Rattle.spelling.specs.Numeral;
ghost use Rattle.spelling.specs.Numeral.{numeral, log_text};
ghost use Rattle.spelling.specs.Decimal;
ghost use Rattle.spelling.specs.Wrote.{Wrote};

// One byte.
fn byte(out: &mut [u8], to: usize, b: u8) -> usize
    requires { to < length out.old }
    ensures { Wrote out.old to (b ∷ []) out.new result }
{
    out[to] = b;
    to + 1
}

// A text.
pub fn text(out: &mut [u8], to: usize, text: &[u8]) -> usize
    requires { to + length text.now ≤ length out.old }
    ensures { Wrote out.old to text.now out.new result }
{
    let end = to + text.len();
    out[to..end].copy_from_slice(text);
    end
}

// The byte of a digit: `0` to `9`, then `a` to `f`.
fn symbol(d: u32) -> u8
    requires { d < 16 }
    ensures { result ≡ Numeral.symbol d }
{
    if d < 10 {
        b'0' + d as u8
    } else {
        b'a' + (d - 10) as u8
    }
}

// A number in a base with so many digits, the highest first.
pub fn number(out: &mut [u8], to: usize, n: u32, width: usize, base: u32) -> usize
    requires { (to + width ≤ length out.old) × (0 < base) × (base ≤ 16) }
    ensures { Wrote out.old to (numeral base width n) out.new result }
{
    if width == 0 {
        return to;
    }
    let next = number(out, to, n / base, width - 1, base);
    byte(out, next, symbol(n % base))
}

// A number in plain decimals.
pub fn decimal(out: &mut [u8], to: usize, n: u32) -> usize
    requires { (to + 3 ≤ length out.old) × (n < 1000) }
    ensures { Wrote out.old to (Decimal.decimal n) out.new result }
{
    if n < 10 {
        return number(out, to, n, 1, 10);
    }
    if n < 100 {
        return number(out, to, n, 2, 10);
    }
    number(out, to, n, 3, 10)
}

// A number below a hundred as two digits.
fn two_digits(out: &mut [u8], to: usize, n: u8) -> usize
    requires { to + 2 ≤ length out.old }
    ensures { Wrote out.old to (digits n) out.new result }
{
    text(out, to, &[b'0' + n / 10, b'0' + n % 10])
}

// Actions, two digits each, run together.
pub fn actions(out: &mut [u8], to: usize, log: &[u8]) -> usize
    requires { to + 2 * length log.now ≤ length out.old }
    ensures { Wrote out.old to (log_text log.now) out.new result }
{
    let mut at = to;
    for action in log {
        at = two_digits(out, at, *action);
    }
    at
}
