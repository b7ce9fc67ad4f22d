// Residuals and places of a line spectrum (RFC 6716, sections 4.2.7.5.2 and 4.2.7.5.3): the first half of the crate's
// NLSF_decode.rs, with the predictors of its NLSF_unpack.rs.
#![tactic(auto)]

ghost use Rattle.std.specs.Prelude.{◌≡◌, ◌+◌, ◌*◌, ◌≤◌, ◌<◌, length, pos, ◌+ℤ◌, ◌*ℤ◌};
ghost use Rattle.std.specs.Int.Signed.{quot_z};
ghost use Rattle.spectrum.specs.Values.{Mag};
ghost use Rattle.spectrum.specs.Residuals.{nudged, scaled, predicted};
ghost use Rattle.spectrum.specs.Places.{placed};
ghost use Rattle.nlsf_places.specs.Inner.{toward_zero, predictor_of, weighted, places_by, PlacesOk};

use nlsf_weights::{last_share_run, roots, shares, weigh_run};

// ---- predictors

// The predictor of place i in list l. Both lists stand in one row, since which of them it comes from can't be guessed
// ahead: a choice of two loads would be compiled to a jump.
fn predictor(lists: &[u8], l: u8, i: usize) -> u8
    requires { (l < 2) × (2 * i + 1 < length lists.now) }
    ensures { result ≡ predictor_of lists.now l i }
{
    lists[2 * i + (l as usize)]
}

// ---- residuals

// 102 toward zero.
fn toward_zero(x: i8) -> i32
    ensures { result ≡ toward_zero x }
{
    if x > 0 {
        return -102;
    }
    if x < 0 {
        return 102;
    }
    0
}

// An index x 1024, moved 102 toward zero. No product stands in an arm: signs can't be guessed ahead, and constants
// are chosen without a jump.
fn nudge(x: i8) -> i32
    ensures { result ≡ nudged x }
{
    (x as i32) * 1024 + toward_zero(x)
}

// Times the step, shifted right 16 with floor.
fn scale(x: i8, step: u16) -> i32
    requires { Mag 10 x × (step ≤ 11796) }
    ensures { result ≡ scaled step x }
{
    (nudge(x) * (step as i32)) >> 16
}

// What the residual behind adds, through a predictor, with floor.
fn predict(p: u8, r: i32) -> i32
    requires { Mag 29200 r }
    ensures { result ≡ predicted p r }
{
    (r * (p as i32)) >> 8
}

// The residual of a place.
fn residual(x: i8, step: u16, p: u8, behind: i32) -> i32
    requires { (Mag 10 x × (step ≤ 11796)) × Mag 29200 behind }
    ensures { result ≡ predicted p behind +ℤ scaled step x }
{
    predict(p, behind) + scale(x, step)
}

// ---- places

// Book value x 128 plus residual x 16,384 divided by its weight, toward zero.
fn moved(value: u8, weight: u16, r: i32) -> i32
    requires { Mag 29200 r × (1 ≤ weight) }
    ensures { result ≡ quot_z (r *ℤ pos 16384) (pos weight) +ℤ pos (value * 128) }
{
    (r * 16384) / (weight as i32) + (value as i32) * 128
}

// The place of a value: that, held between 0 and 32,767.
fn place(value: u8, weight: u16, r: i32) -> i16
    requires { Mag 29200 r × (1 ≤ weight) }
    ensures { result ≡ placed value weight r }
{
    let z = moved(value, weight, r);
    if z > 32767 {
        return 32767;
    }
    if z < 0 {
        return 0;
    }
    z as i16
}

// ---- the vector

// Every place of a vector, from the last down, each by its weight: two places a turn, since a selector serves two.
pub fn places_run(
    vector: &mut [i16],
    xs: &[i8],
    step: u16,
    selectors: &[u8],
    lists: &[u8],
    values: &[u8],
)
    requires { PlacesOk (weighted step selectors.now lists.now values.now) vector.old xs.now }
    ensures { vector.new ≡
        places_by (weighted step selectors.now lists.now values.now) xs.now }
{
    let shares = shares();
    let roots = roots();
    let mut q = last_share_run(&shares, values);
    let mut r: i32 = 0;
    for k in (0..selectors.len()).rev() {
        let e = selectors[k];
        let j = 2 * k + 1;
        r = residual(xs[j], step, predictor(lists, e / 16 % 2, j), r);
        let w = weigh_run(&shares, &roots, values, j, q);
        vector[j] = place(values[j], w.weight, r);
        let i = 2 * k;
        r = residual(xs[i], step, predictor(lists, e % 2, i), r);
        let u = weigh_run(&shares, &roots, values, i, w.share);
        vector[i] = place(values[i], u.weight, r);
        q = u.share;
    }
}
