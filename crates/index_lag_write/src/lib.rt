// Lag and contour of a voiced frame written (RFC 6716, section 4.2.7.6.1): what a record whose fields lie in their
// ranges says of them, each by the row that its reader reads. The rows are lent by the caller.
#![tactic(auto)]

ghost use Rattle.std.specs.Prelude.{ℕ, ◌-◌, ◌*◌, ◌^◌, ℤ};
ghost use Rattle.entcode.specs.Flat.{out};
ghost use Rattle.tree.specs.Inner.Growth.{of_symbols};
ghost use Rattle.tree.specs.Inner.Told.{Told, Midway};
ghost use Rattle.silk.specs.Inner.Indices.{Writing, Rate, Subframes, contour_size, Upto};
ghost use Rattle.silk.specs.IndexSyntax.{absolute_lag, lag, contour};

use entcode::Enc;
use entenc_run::ec_enc_icdf8_run;
use index_layout::{contour_row_run, delta_lag_row_run, lag_low_row_run, lag_row_run};
use silk::Indices;

// How often half the rate goes into it, and what is left.
fn absolute_lag_tell(buf: &mut [u8], w: Enc, rows: &[u8], x: Indices, khz: u32) -> Enc
    requires writing { Writing (out buf.old w) rows.now (2 ^ 29) }
    requires rate { Rate khz × Upto (16 * khz - 1) x.lag }
    ensures { Told (out buf.old w) x (absolute_lag khz x) (of_symbols 2) (out buf.new result) }
{
    let half = khz / 2;
    let value = x.lag as u32;
    let h = ec_enc_icdf8_run(buf, w, value / half, lag_row_run(rows));
    ec_enc_icdf8_run(buf, h, value % half, lag_low_row_run(rows, khz))
}

// Delta symbol 0 where a delta is due: what is left to say of the lag is then absolute.
fn delta_tell(buf: &mut [u8], w: Enc, rows: &[u8], relative: bool) -> Enc
    requires { Writing (out buf.old w) rows.now (2 ^ 28) }
    ensures { (khz : ℕ) (before : ℤ) (x : Indices) →
        Midway (out buf.old w) x (lag relative khz before x) (of_symbols 1) (out buf.new result) x (absolute_lag khz x) }
{
    if relative {
        ec_enc_icdf8_run(buf, w, 0, delta_lag_row_run(rows))
    } else {
        w
    }
}

// Always absolute, by one call after a delta or without: with two it is not inlined, and the state goes through memory.
pub fn lag_tell_run(
    buf: &mut [u8],
    w: Enc,
    rows: &[u8],
    x: Indices,
    relative: bool,
    khz: u32,
) -> Enc
    requires writing { Writing (out buf.old w) rows.now (2 ^ 28) }
    requires rate { Rate khz × Upto (16 * khz - 1) x.lag }
    ensures { (before : ℤ) → Told (out buf.old w) x (lag relative khz before x) (of_symbols 3) (out buf.new result) }
{
    let q = delta_tell(buf, w, rows, relative);
    absolute_lag_tell(buf, q, rows, x, khz)
}

pub fn contour_tell_run(
    buf: &mut [u8],
    w: Enc,
    rows: &[u8],
    x: Indices,
    khz: u32,
    subframes: u32,
) -> Enc
    requires writing { Writing (out buf.old w) rows.now (2 ^ 29) }
    requires rate { Rate khz × Subframes subframes × Upto (contour_size khz subframes - 1) x.contour }
    ensures { Told (out buf.old w) x (contour khz subframes x) (of_symbols 1) (out buf.new result) }
{
    ec_enc_icdf8_run(
        buf,
        w,
        x.contour as u32,
        contour_row_run(rows, khz, subframes),
    )
}
