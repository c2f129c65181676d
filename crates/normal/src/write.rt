// Bytes to the lent output, one place after another. Where the output ends nothing is written, so that a run over an empty part only counts.
ghost use Rattle.std.specs.Prelude.{◌≡◌, set};

pub(crate) fn put(out: &mut [u8], to: usize, b: u8)
    ensures { out.new ≡ set out.old to b }
{
    if to < out.len() {
        out[to] = b;
    }
}
