// Each test in its turn, over the rows of the log: what it is told is its own, whatever the others are told. Knows that everything but the tests has been checked.
ghost use Rattle.board.specs.Told.{ByteFound, Roomy, AllTold};

use ask::true_at;
use rule::{Kind, check_rule};
use spelling::scan::find_lf;
use tables::ROWS;
use theory::Setting;

// "0 no, 1 yes, otherwise 16 plus the refusal number"
const REFUSED: u8 = 16;

// What a test is told.
fn byte_of(s: Setting, test: &[u8], rows: &[u64; ROWS], then: usize, now: usize) -> u8
    ensures { ByteFound s test.now rows.now then now result }
{
    match check_rule(test, Kind::Test, s.counts) {
        Err(why) => REFUSED + u8::from(why),
        Ok(()) => u8::from(true_at(s, test, rows, then, now)),
    }
}

// All of them, from the front of the output; how many they are.
pub(crate) fn tell(
    s: Setting,
    text: &[u8],
    rows: &[u64; ROWS],
    then: usize,
    now: usize,
    out: &mut [u8],
) -> usize
    requires { Roomy text.now out.old }
    ensures { AllTold s text.now rows.now then now out.old result out.new }
{
    let mut at = 0;
    for (k, byte) in out.iter_mut().enumerate() {
        if at == text.len() {
            return k;
        }
        // The next test stands up to its LF.
        let end = find_lf(text, at);
        *byte = byte_of(s, &text[at..end], rows, then, now);
        at = end + 1;
    }
    out.len()
}
