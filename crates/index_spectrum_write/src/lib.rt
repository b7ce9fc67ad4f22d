// First index and residuals of a frame's line spectrum written (RFC 6716, section 4.2.7.5): what a record whose
// fields lie in their ranges says of them, each by the row that its reader reads. The rows are lent by the caller.
#![tactic(auto)]

ghost use Rattle.std.specs.Prelude.{◌≡◌, false, ℕ, ◌+◌, ◌*◌, ◌^◌, ◌≤◌, ◌<◌, pos, negsuc, nat_abs, ◌+ℤ◌, length, get_or};
ghost use Rattle.std.specs.Int.Signed.{le_z};
ghost use Rattle.sheet.specs.Directory.{row_of};
ghost use Rattle.entcode.specs.Flat.{out};
ghost use Rattle.tree.specs.Inner.Growth.{of_symbols};
ghost use Rattle.tree.specs.Inner.Told.{Told};
ghost use Rattle.silk.specs.Inner.Indices.{Writing, Rate, WritesSpectrum};
ghost use Rattle.silk.specs.IndexSyntax.{extension_said, residual, residuals, spectrum};

use entcode::Enc;
use entenc_run::ec_enc_icdf8_run;
use index_layout::{extension_row_run, first_index_row_run, order_of, residual_row_run};
use nlsf_unpack::{residual_pick_run, selectors_run};
use silk::Indices;

// ---- one residual

// How far it lies past an end, -4 or 4.
fn extension_said(z: i8) -> u32
    requires { (4 ≤ nat_abs z) × (nat_abs z ≤ 10) }
    ensures { result ≡ extension_said z }
{
    (z.unsigned_abs() as u32) - 4
}

// The symbol of a residual between the ends.
fn centred_said(z: i8) -> u32
    requires { (le_z z (negsuc 3) ≡ false) × (le_z (pos 4) z ≡ false) }
    ensures { (result ≡ nat_abs (z +ℤ pos 4)) × (1 ≤ result) × (result < 8) }
{
    (z + 4) as u32
}

// A residual by row k of both books' 16: symbol 0 or 8 at an end, and how far past it.
fn residual_tell(buf: &mut [u8], w: Enc, rows: &[u8], z: i8, k: usize) -> Enc
    requires writing { Writing (out buf.old w) rows.now (2 ^ 29) }
    requires k_bound { (k < 16) × (nat_abs z ≤ 10) }
    ensures { Told (out buf.old w) z (residual (row_of (12 + k))) (of_symbols 2) (out buf.new result) }
{
    let row = residual_row_run(rows, k);
    if z <= -4 {
        let q = ec_enc_icdf8_run(buf, w, 0, row);
        ec_enc_icdf8_run(buf, q, extension_said(z), extension_row_run(rows))
    } else if 4 <= z {
        let q = ec_enc_icdf8_run(buf, w, 8, row);
        ec_enc_icdf8_run(buf, q, extension_said(z), extension_row_run(rows))
    } else {
        ec_enc_icdf8_run(buf, w, centred_said(z), row)
    }
}

// ---- all of them

// The residual of each of n places.
fn residuals_tell(
    buf: &mut [u8],
    w: Enc,
    rows: &[u8],
    x: Indices,
    selectors: &[u8],
    khz: u32,
    n: usize,
) -> Enc
    requires writing { Writing (out buf.old w) rows.now (2 ^ 28) }
    requires rate { Rate khz × (n ≤ 2 * length selectors.now) × (n ≤ 16) }
    requires by_index { (k : ℕ) → 1 ≤ k → k ≤ n → nat_abs (get_or x.nlsf k (pos 0)) ≤ 10 }
    ensures { Told (out buf.old w) x (residuals khz selectors.now n 0 x) (of_symbols 32) (out buf.new result) }
{
    let base = (khz / 16 * 8) as usize;
    let mut q = w;
    for i in 0..n {
        let k = residual_pick_run(selectors, i);
        q = residual_tell(buf, q, rows, x.nlsf[i + 1], base + k);
    }
    q
}

pub fn spectrum_tell_run(
    buf: &mut [u8],
    w: Enc,
    rows: &[u8],
    x: Indices,
    khz: u32,
    signal: u32,
) -> Enc
    requires writing { Writing (out buf.old w) rows.now (2 ^ 27) }
    requires rate { Rate khz × (signal < 3) × WritesSpectrum khz x }
    ensures { Told (out buf.old w) x (spectrum khz signal x) (of_symbols 33) (out buf.new result) }
{
    let v = x.nlsf[0] as u32;
    let q = ec_enc_icdf8_run(buf, w, v, first_index_row_run(rows, khz, signal));
    let s = selectors_run(khz, v);
    residuals_tell(buf, q, rows, x, &s, khz, order_of(khz))
}
