// Lag and contour of a voiced frame read (RFC 6716, section 4.2.7.6.1), as in the crate's decode_indices.rs. The rows
// are lent by the caller, and so are the reader and the record that is filled.
#![tactic(auto)]

ghost use Rattle.std.specs.Prelude.{◌≡◌, ◌^◌, ◌<◌, ◌≤◌};
ghost use Rattle.symbol_reader.specs.Inner.{Along};
ghost use Rattle.tree.specs.Inner.Growth.{of_symbols};
ghost use Rattle.silk.specs.Inner.Indices.{IndexRows, Rate, Subframes};
ghost use Rattle.silk.specs.IndexSyntax.{absolute_lag, lag_after, lag, contour};

use index_layout::{contour_row_run, delta_lag_row_run, lag_low_row_run, lag_row_run};
use silk::Indices;
use symbol_reader::Reader;

fn absolute_lag(r: &mut Reader, rows: &[u8], x: &mut Indices, khz: u32)
    requires few { r.old.state.total ≤ 2 ^ 29 }
    requires rows { IndexRows rows.now }
    requires rate { Rate khz }
    ensures { Along r.old (absolute_lag khz x.old) (of_symbols 2) x.new r.new }
{
    let high = r.symbol_run(lag_row_run(rows));
    let low = r.symbol_run(lag_low_row_run(rows, khz));
    x.lag = (high * (khz / 2) + low) as i16;
}

// Symbols 1 to 20 mean -8 to 11; the sum is kept in 16 bits.
fn lag_after(before: i16, v: u32) -> i16
    requires { v < 21 }
    ensures { result ≡ lag_after before v }
{
    let delta = (v as i16) - 9;
    wrapping::add16(before, delta)
}

// Delta symbol 0 means that an absolute lag follows.
pub fn lag_index_run(
    r: &mut Reader,
    rows: &[u8],
    x: &mut Indices,
    relative: bool,
    khz: u32,
    before: i16,
)
    requires few { r.old.state.total ≤ 2 ^ 28 }
    requires rows { IndexRows rows.now }
    requires rate { Rate khz }
    ensures { Along r.old (lag relative khz before x.old) (of_symbols 3) x.new r.new }
{
    if relative {
        let v = r.symbol_run(delta_lag_row_run(rows));
        if v == 0 {
            absolute_lag(r, rows, x, khz);
        } else {
            x.lag = lag_after(before, v);
        }
    } else {
        absolute_lag(r, rows, x, khz);
    }
}

pub fn contour_index_run(r: &mut Reader, rows: &[u8], x: &mut Indices, khz: u32, subframes: u32)
    requires few { r.old.state.total ≤ 2 ^ 29 }
    requires rows { IndexRows rows.now }
    requires rate { Rate khz × Subframes subframes }
    ensures { Along r.old (contour khz subframes x.old) (of_symbols 1) x.new r.new }
{
    x.contour = r.symbol_run(contour_row_run(rows, khz, subframes)) as i8;
}
