// Whether type, gains, line spectrum and interpolation of a record lie in their ranges, so that a frame may be
// written (document 01, "Side indices", refusal 8). A field that this frame does not code is not looked at. Bounds are
// tested by `&`, which has no jump: `contains` of a range has a way out in its middle.
#![tactic(auto)]

ghost use Rattle.std.specs.Prelude.{◌≡◌, ℕ, ◌≤◌, ◌<◌, pos, nat_abs, get_or};
ghost use Rattle.deciding.specs.Inner.{Decides};
ghost use Rattle.silk.specs.Inner.Indices.{Subframes, Upto, first_most, WritesGains, WritesSpectrum, WritesKind};
ghost use Rattle.silk.specs.IndexSyntax.{book_of};

use ranges::all_in_range;
use silk::Indices;

// Signal type 0 in an inactive frame, 1 or 2 in an active one; offset type 0 or 1.
pub fn kind_ok_run(x: Indices, active: u32) -> bool
    requires { active < 2 }
    ensures { Decides result (WritesKind active x) }
{
    let least = active as i8;
    let most = (active * 2) as i8;
    ((least <= x.signal) & (x.signal <= most)) & ((0 <= x.offset) & (x.offset <= 1))
}

// 0 to 63 by itself, 0 to 40 against the frame before.
fn first_most(mode: u32) -> i8
    ensures { result ≡ pos (first_most mode) }
{
    if mode == 2 { 40 } else { 63 }
}

// A gain for each subframe.
pub fn gains_ok_run(x: Indices, mode: u32, subframes: u32) -> bool
    requires { Subframes subframes }
    ensures { Decides result (WritesGains mode subframes x) }
{
    let first = x.gains[0];
    let most = first_most(mode);
    let n = subframes as usize;
    ((0 <= first) & (first <= most)) & all_in_range(&x.gains[1..n], 0, 40)
}

// Residuals from -10 to 10: 16 of them at 16 kHz, else 10. Two calls, as either loop's number of turns is then a constant.
fn residuals_ok(x: Indices, khz: u32) -> bool
    ensures { Decides result ((k : ℕ) → 1 ≤ k → k ≤ (book_of khz).order → nat_abs (get_or x.nlsf k (pos 0)) ≤ 10) }
{
    if khz == 16 {
        all_in_range(&x.nlsf[1..17], -10, 10)
    } else {
        all_in_range(&x.nlsf[1..11], -10, 10)
    }
}

pub fn spectrum_ok(x: Indices, khz: u32) -> bool
    ensures { Decides result (WritesSpectrum khz x) }
{
    let first = x.nlsf[0];
    ((0 <= first) & (first <= 31)) & residuals_ok(x, khz)
}

// 4 for 2 subframes.
pub fn interpolation_ok_run(interp: i8, subframes: u32) -> bool
    requires { Subframes subframes }
    ensures { Decides result (Upto 4 interp × (subframes ≡ 2 → interp ≡ pos 4)) }
{
    ((0 <= interp) & (interp <= 4)) & ((subframes == 4) | (interp == 4))
}
