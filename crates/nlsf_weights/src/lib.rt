// The weights of a spectrum vector by their rule (RFC 6716, section 4.2.7.5.3): of each value, by its distances from the
// values around it. Vectors are gone through from the last value down, as places are, and a distance serves both values.
#![tactic(auto)]

ghost use Rattle.std.specs.Prelude.{◌≡◌, true, ◌-◌, ◌*◌, ◌/◌, ◌^◌, ◌≤◌, ◌<◌, length, get_or};
ghost use Rattle.bitlen.specs.Length.{bit_length};
ghost use Rattle.sheet.specs.Weights.{root_at, weights_of, rises};
ghost use Rattle.nlsf_weights.specs.Inner.{share_row, root_row, share_at, edges, Asked};

use bitlen::ec_ilog;

// ---- shares

// 1024 divided by each distance that the books have (`narrow_rises`, `wide_rises`): 96 bytes, since a division takes longer.
const SHARES: [u16; 48] = [
    0,
    1024 / 1,
    1024 / 2,
    1024 / 3,
    1024 / 4,
    1024 / 5,
    1024 / 6,
    1024 / 7,
    1024 / 8,
    1024 / 9,
    1024 / 10,
    1024 / 11,
    1024 / 12,
    1024 / 13,
    1024 / 14,
    1024 / 15,
    1024 / 16,
    1024 / 17,
    1024 / 18,
    1024 / 19,
    1024 / 20,
    1024 / 21,
    1024 / 22,
    1024 / 23,
    1024 / 24,
    1024 / 25,
    1024 / 26,
    1024 / 27,
    1024 / 28,
    1024 / 29,
    1024 / 30,
    1024 / 31,
    1024 / 32,
    1024 / 33,
    1024 / 34,
    1024 / 35,
    1024 / 36,
    1024 / 37,
    1024 / 38,
    1024 / 39,
    1024 / 40,
    1024 / 41,
    1024 / 42,
    1024 / 43,
    1024 / 44,
    1024 / 45,
    1024 / 46,
    1024 / 47,
];

#[tactic(auto, unfolding(crate::specs::Inner::share_row))]
pub fn shares() -> [u16; 48]
    ensures { result ≡ share_row }
{
    SHARES
}

#[tactic(auto, using(crate::proofs::RowLaws::shares_long, crate::proofs::RowLaws::share_in))]
fn share(shares: &[u16], a: u32, x: u32) -> u32
    requires { (shares.now ≡ share_row) × ((a ≤ x) × (x - a < 48)) }
    ensures { result ≡ 1024 / (x - a) }
{
    u32::from(shares[(x - a) as usize])
}

// ---- roots

// By the bit length of two shares together: a power of two where it is odd, such a power times the root of two where not.
const ROOTS: [u16; 13] = [
    46214 >> 8,
    32768 >> 7,
    46214 >> 7,
    32768 >> 6,
    46214 >> 6,
    32768 >> 5,
    46214 >> 5,
    32768 >> 4,
    46214 >> 4,
    32768 >> 3,
    46214 >> 3,
    32768 >> 2,
    46214 >> 2,
];

#[tactic(auto, unfolding(crate::specs::Inner::root_row))]
pub fn roots() -> [u16; 13]
    ensures { result ≡ root_row }
{
    ROOTS
}

// The root of two shares together x 2^16, whose bit length is 16 more.
fn root(roots: &[u16], s: u32) -> u16
    requires { (roots.now ≡ root_row) × ((1 ≤ s) × (s ≤ 2048)) }
    ensures { result ≡ root_at (s * 2 ^ 16) (bit_length (s * 2 ^ 16)) }
{
    let i = ec_ilog(s);
    let f = ((s << 8) >> i) % 128;
    let y = u32::from(roots[i as usize]);
    (y + ((213 * f * y) >> 16)) as u16
}

// ---- weights

// The value before place i, and 0 before the first.
fn value_before(values: &[u8], i: usize) -> u32
    requires { i < length values.now }
    ensures { result ≡ get_or (edges values.now) i 0 }
{
    if i > 0 { u32::from(values[i - 1]) } else { 0 }
}

// The share behind the last value: 256 stands there.
pub fn last_share_run(shares: &[u16], values: &[u8]) -> u32
    requires { (shares.now ≡ share_row) × ((1 ≤ length values.now) × (rises values.now ≡ true)) }
    ensures { result ≡ share_at values.now (length values.now) }
{
    share(shares, u32::from(values[values.len() - 1]), 256)
}

// A weight, and the share before its value.
#[derive(Clone, Copy)]
pub struct Weighed {
    pub weight: u16,
    pub share: u32,
}

// The weight of place i, by the share behind its value.
pub fn weigh_run(shares: &[u16], roots: &[u16], values: &[u8], i: usize, behind: u32) -> Weighed
    requires { Asked shares.now roots.now values.now i behind }
    ensures weight_value { result.weight ≡ get_or (weights_of values.now) i 0 }
    ensures share_value { result.share ≡ share_at values.now i }
{
    let q = share(shares, value_before(values, i), u32::from(values[i]));
    Weighed {
        weight: root(roots, q + behind),
        share: q,
    }
}

// The weights of a whole vector.
pub fn weights_run(weights: &mut [u16], values: &[u8])
    requires { (length weights.old ≡ length values.now) × ((1 ≤ length values.now) × (rises values.now ≡ true)) }
    ensures { weights.new ≡ weights_of values.now }
{
    let shares = shares();
    let roots = roots();
    let mut q = last_share_run(&shares, values);
    for i in (0..values.len()).rev() {
        let w = weigh_run(&shares, &roots, values, i, q);
        weights[i] = w.weight;
        q = w.share;
    }
}
