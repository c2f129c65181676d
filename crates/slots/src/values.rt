// What the variables are given to stand for, and how a test inside a walk is read. Knows no text and no set of positions.
ghost use Rattle.std.specs.Prelude.{◌≡◌, ◌<◌, length, set};
ghost use Rattle.grammar.specs.Letters.{variables};
ghost use Rattle.runs.specs.Values.{unbound, inside_of};
ghost use Rattle.steps.specs.Values.{listed};

use steps::letters::Values;

// No variable is bound.
pub fn none_bound(domain: usize, own: usize, inner: usize) -> Values
    ensures { listed result ≡ unbound domain own inner }
{
    Values {
        of: [0, 0, 0, 0],
        domain,
        own,
        inner,
    }
}

// The same inside a `<`.
pub fn inside(vars: &Values) -> Values
    ensures { listed result ≡ inside_of (listed vars.now) }
{
    Values {
        own: vars.inner,
        ..*vars
    }
}

// The same with another value for one variable.
pub fn rebound(vars: &Values, place: usize, value: usize) -> Values
    requires { place < length variables }
    ensures { listed result ≡ set (listed vars.now) place value }
{
    let mut of = vars.of;
    of[place] = value;
    Values { of, ..*vars }
}
