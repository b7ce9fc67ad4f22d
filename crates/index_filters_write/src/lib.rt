// Filters of a voiced frame and their scale written (RFC 6716, sections 4.2.7.6.2 and 4.2.7.6.3): what a record whose
// fields lie in their ranges says of them, each by the row that its reader reads. The rows are lent by the caller.
#![tactic(auto)]

ghost use Rattle.std.specs.Prelude.{ℕ, ◌-◌, ◌*◌, ◌^◌, ◌<◌, pos, nat_abs, get_or};
ghost use Rattle.entcode.specs.Flat.{out};
ghost use Rattle.tree.specs.Inner.Growth.{of_symbols};
ghost use Rattle.tree.specs.Inner.Told.{Told};
ghost use Rattle.silk.specs.Inner.Indices.{Writing, Subframes, Upto};
ghost use Rattle.silk.specs.IndexSyntax.{filters, period, scale};

use entcode::Enc;
use entenc_run::ec_enc_icdf8_run;
use index_layout::{filter_row_run, period_row_run, scale_row_run};
use silk::Indices;

// The filter of each of n subframes, by the row of period p.
fn filters_tell(buf: &mut [u8], w: Enc, rows: &[u8], x: Indices, p: u32, n: usize) -> Enc
    requires writing { Writing (out buf.old w) rows.now (2 ^ 29) }
    requires p_bound { (p < 3) × Subframes n × ((k : ℕ) → k < n → Upto (8 * 2 ^ p - 1) (get_or x.ltp k (pos 0))) }
    ensures { Told (out buf.old w) x (filters p n 0 x) (of_symbols 4) (out buf.new result) }
{
    let row = filter_row_run(rows, p);
    let mut q = w;
    for k in 0..n {
        q = ec_enc_icdf8_run(buf, q, x.ltp[k] as u32, row);
    }
    q
}

pub fn period_tell_run(buf: &mut [u8], w: Enc, rows: &[u8], x: Indices, subframes: u32) -> Enc
    requires writing { Writing (out buf.old w) rows.now (2 ^ 28) }
    requires subframes { Subframes subframes × Upto 2 x.period }
    requires by_index { (k : ℕ) → k < subframes → Upto (8 * 2 ^ nat_abs x.period - 1) (get_or x.ltp k (pos 0)) }
    ensures { Told (out buf.old w) x (period subframes x) (of_symbols 5) (out buf.new result) }
{
    let p = x.period as u32;
    let q = ec_enc_icdf8_run(buf, w, p, period_row_run(rows));
    filters_tell(buf, q, rows, x, p, subframes as usize)
}

// Nothing but in mode 0.
pub fn scale_tell_run(buf: &mut [u8], w: Enc, rows: &[u8], x: Indices, mode: u32) -> Enc
    requires writing { Writing (out buf.old w) rows.now (2 ^ 29) }
    requires upto { Upto 2 x.scale }
    ensures { Told (out buf.old w) x (scale mode x) (of_symbols 1) (out buf.new result) }
{
    if mode == 0 {
        ec_enc_icdf8_run(buf, w, x.scale as u32, scale_row_run(rows))
    } else {
        w
    }
}
