// The table of signs: which bytes are signs of a walk, which of a test, and what follows each. Reader, table of ends and rewriter go by it.
ghost use Rattle.std.specs.Prelude.{◌≡◌};
ghost use Rattle.grammar.specs.Signs.{sign_meant, turns_back};

// A byte as a sign, by what follows it: seven of a walk, seven of a test. No byte is a sign of both, and a variable's letter is none.
#[derive(Clone, Copy)]
pub enum Sign {
    // n, u
    Step,
    // aNN, rNN
    NamedStep,
    // *W, -W
    OverWalk,
    // ?T
    OverTest,
    // ;VW, |VW
    TwoWalks,
    // 1
    Constant,
    // fNN
    NamedFluent,
    // !T
    Denial,
    // &TU
    TwoTests,
    // <WT
    WalkThenTest,
    // bNNv, sNNv
    SumStep,
    // pvW
    SomeWalk,
    // gNNv
    SumFluent,
    // evT
    SomeTest,
    // no sign at all: refusal 6
    Stranger,
}

// The sign that a byte is. One match of all the signs was tried, and is slower: the compiler leaves it a call of its own, and each sign is branched on twice (a verdict took 1.04 to 1.07 times
// as long, of a rule of 255 bytes 1.27 times; set into whoever asks by `inline(always)`, 1.05 to 1.21). Matches of three signs at most it turns into comparisons, and sets these into whoever asks.
#[tactic(auto, unfolding(crate::specs::Signs::sign_meant))]
pub fn sign_of(byte: u8) -> Sign
    ensures { result ≡ sign_meant byte }
{
    if byte < b'a' {
        if byte < b'-' {
            match byte {
                b'!' => Sign::Denial,
                b'&' => Sign::TwoTests,
                b'*' => Sign::OverWalk,
                _ => Sign::Stranger,
            }
        } else if byte < b';' {
            match byte {
                b'-' => Sign::OverWalk,
                b'1' => Sign::Constant,
                _ => Sign::Stranger,
            }
        } else {
            match byte {
                b';' => Sign::TwoWalks,
                b'<' => Sign::WalkThenTest,
                b'?' => Sign::OverTest,
                _ => Sign::Stranger,
            }
        }
    } else if byte < b'n' {
        if byte < b'e' {
            match byte {
                b'a' => Sign::NamedStep,
                b'b' => Sign::SumStep,
                _ => Sign::Stranger,
            }
        } else {
            match byte {
                b'e' => Sign::SomeTest,
                b'f' => Sign::NamedFluent,
                b'g' => Sign::SumFluent,
                _ => Sign::Stranger,
            }
        }
    } else if byte < b's' {
        match byte {
            b'n' => Sign::Step,
            b'p' => Sign::SomeWalk,
            b'r' => Sign::NamedStep,
            _ => Sign::Stranger,
        }
    } else {
        match byte {
            b's' => Sign::SumStep,
            b'u' => Sign::Step,
            b'|' => Sign::TwoWalks,
            _ => Sign::Stranger,
        }
    }
}

// "In a job `-`, `r` and `u` may stand only inside the walk of a `<`", and "9 covers `s`": one of these.
#[tactic(auto, unfolding(crate::specs::Signs::turns_back))]
pub fn turns(byte: u8) -> bool
    ensures { result ≡ turns_back byte }
{
    matches!(byte, b'-' | b'r' | b'u' | b's')
}
