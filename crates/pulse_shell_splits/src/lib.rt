// The splits of a block's pulses, added up (RFC 6716, section 4.2.7.8.3), as by the crate's combine_pulses.
#![tactic(auto)]

ghost use Rattle.std.specs.Prelude.{◌≡◌, map, ◌≤◌, length};
ghost use Rattle.silk.specs.PulseSyntax.{total};
ghost use Rattle.pulse_shell_splits.specs.Inner.{parts_of, all_of, left_of};

// The splits of a block in their order: of `all` pulses, `left` lie in the left half.
#[derive(Clone, Copy)]
pub struct Splits {
    pub all: [u8; 15],
    pub left: [u8; 15],
}

// The splits of p pulses in 16 places.
pub fn splits_of_run(x: &[u8], p: u8) -> Splits
    requires { (length x.now ≡ 16) × (p ≤ 16) × (total x.now ≡ p) }
    ensures { (result.all ≡ map all_of (parts_of 4 x.now)) × (result.left ≡ map left_of (parts_of 4 x.now)) }
{
    let a = x[0] + x[1];
    let b = x[2] + x[3];
    let c = x[4] + x[5];
    let d = x[6] + x[7];
    let e = x[8] + x[9];
    let f = x[10] + x[11];
    let g = x[12] + x[13];
    let h = x[14] + x[15];
    let ab = a + b;
    let cd = c + d;
    let ef = e + f;
    let gh = g + h;
    let ad = ab + cd;
    let eh = ef + gh;
    let all = [p, ad, ab, a, b, cd, c, d, eh, ef, e, f, gh, g, h];
    let left = [
        ad, ab, a, x[0], x[2], c, x[4], x[6], ef, e, x[8], x[10], g, x[12], x[14],
    ];
    Splits { all, left }
}
