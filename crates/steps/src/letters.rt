// The letters of variables in a text, and what each stands for. Knows no set of positions.
ghost use Rattle.std.specs.Prelude.{◌≡◌, ◌<◌, length};
ghost use Rattle.meaning.specs.Rule.{Variable};
ghost use Rattle.grammar.specs.Letters.{variables, place, Lettered};
ghost use Rattle.runs.specs.Values.{value_in, LetterHere};
ghost use Rattle.steps.specs.Values.{listed};

// What the variables stand for, and how tests are read.
#[derive(Clone, Copy)]
pub struct Values {
    // the values of `v`, `w`, `x`, `y` in this order
    pub of: [usize; 4],
    // how many values there are
    pub domain: usize,
    // how a walk's own tests are read
    pub own: usize,
    // how those inside a `<` are
    pub inner: usize,
}

// Which variable's letter stands at a place where one does.
pub fn place_of(text: &[u8], at: usize) -> usize
    requires { LetterHere text.now at }
    ensures { (result < length variables) × ((v : Variable) → Lettered text.now at v → result ≡ place v) }
{
    let behind = text[at] - b'v';
    usize::from(behind)
}

// What that variable stands for.
pub fn value_of(text: &[u8], at: usize, vars: &Values) -> usize
    requires { LetterHere text.now at }
    ensures { (v : Variable) → Lettered text.now at v → result ≡ value_in (listed vars.now) v }
{
    let place = place_of(text, at);
    vars.of[place]
}
