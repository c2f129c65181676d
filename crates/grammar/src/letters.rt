// The letters of variables: where one stands, which variable it is.
ghost use Rattle.grammar.specs.Letters.{LetterAt};

// The variable whose letter stands at a place, by its place among `v`, `w`, `x`, `y`, from 0 on; none, where no variable's does.
pub fn variable_at(text: &[u8], at: usize) -> Option<u8>
    ensures { LetterAt text.now at result }
{
    match text.get(at)? {
        byte @ b'v'..=b'y' => Some(byte - b'v'),
        _ => None,
    }
}
