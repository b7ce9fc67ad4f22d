// What the frame lister prints of a frame (document 01): the definitions, and numbers of 8 bits as the lines take them.
#![tactic(auto)]

ghost use Rattle.std.specs.Prelude.{◌≡◌};

pub fn widened<const N: usize>(xs: [i8; N]) -> [i16; N]
    ensures { result ≡ xs.entry }
{
    let mut wide = [0; N];
    for i in 0..N {
        wide[i] = i16::from(xs[i]);
    }
    wide
}
