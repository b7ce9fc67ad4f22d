// The gains of a frame written (RFC 6716, section 4.2.7.4): what a record whose fields lie in their ranges says of
// them, each by the row that its reader reads. The rows are lent by the caller.
#![tactic(auto)]

ghost use Rattle.std.specs.Prelude.{ℕ, ◌-◌, ◌^◌, ◌≤◌, ◌<◌, pos, get_or};
ghost use Rattle.entcode.specs.Flat.{out};
ghost use Rattle.tree.specs.Inner.Growth.{of_symbols};
ghost use Rattle.tree.specs.Inner.Told.{Told};
ghost use Rattle.silk.specs.Inner.Indices.{Writing, Subframes, Upto, first_most, WritesGains};
ghost use Rattle.silk.specs.IndexSyntax.{first_gain, more_gains, gains};

use entcode::Enc;
use entenc_run::ec_enc_icdf8_run;
use index_layout::{delta_gain_row_run, gain_low_row_run, gain_row_run};
use silk::Indices;

// The first gain.
fn first_gain_tell(buf: &mut [u8], w: Enc, rows: &[u8], x: Indices, mode: u32, signal: u32) -> Enc
    requires writing { Writing (out buf.old w) rows.now (2 ^ 29) }
    requires signal_bound { (signal < 3) × Upto (first_most mode) (get_or x.gains 0 (pos 0)) }
    ensures { Told (out buf.old w) x (first_gain mode signal x) (of_symbols 2) (out buf.new result) }
{
    let gain = x.gains[0] as u32;
    if mode == 2 {
        ec_enc_icdf8_run(buf, w, gain, delta_gain_row_run(rows))
    } else {
        let h = ec_enc_icdf8_run(buf, w, gain / 8, gain_row_run(rows, signal));
        ec_enc_icdf8_run(buf, h, gain % 8, gain_low_row_run(rows))
    }
}

// The gains past the first.
fn more_gains_tell(buf: &mut [u8], w: Enc, rows: &[u8], x: Indices, n: usize) -> Enc
    requires writing { Writing (out buf.old w) rows.now (2 ^ 29) }
    requires subframes { Subframes n × ((k : ℕ) → 1 ≤ k → k < n → Upto 40 (get_or x.gains k (pos 0))) }
    ensures { Told (out buf.old w) x (more_gains (n - 1) 1 x) (of_symbols 3) (out buf.new result) }
{
    let mut q = w;
    for k in 1..n {
        q = ec_enc_icdf8_run(buf, q, x.gains[k] as u32, delta_gain_row_run(rows));
    }
    q
}

pub fn gains_tell_run(
    buf: &mut [u8],
    w: Enc,
    rows: &[u8],
    x: Indices,
    mode: u32,
    subframes: u32,
    signal: u32,
) -> Enc
    requires writing { Writing (out buf.old w) rows.now (2 ^ 28) }
    requires subframes { Subframes subframes × (signal < 3) × WritesGains mode subframes x }
    ensures { Told (out buf.old w) x (gains mode subframes signal x) (of_symbols 5) (out buf.new result) }
{
    let f = first_gain_tell(buf, w, rows, x, mode, signal);
    more_gains_tell(buf, f, rows, x, subframes as usize)
}
