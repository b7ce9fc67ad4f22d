// The gains of a frame read (RFC 6716, section 4.2.7.4), as in the crate's decode_indices.rs. The rows are lent by
// the caller, and so are the reader and the record that is filled.
#![tactic(auto)]

ghost use Rattle.std.specs.Prelude.{◌-◌, ◌^◌, ◌<◌, ◌≤◌};
ghost use Rattle.symbol_reader.specs.Inner.{Along};
ghost use Rattle.tree.specs.Inner.Growth.{of_symbols};
ghost use Rattle.silk.specs.Inner.Indices.{IndexRows, Subframes};
ghost use Rattle.silk.specs.IndexSyntax.{first_gain, more_gains, gains};

use index_layout::{delta_gain_row_run, gain_low_row_run, gain_row_run};
use silk::Indices;
use symbol_reader::Reader;

// The first gain.
fn first_gain(r: &mut Reader, rows: &[u8], x: &mut Indices, mode: u32, signal: u32)
    requires few { r.old.state.total ≤ 2 ^ 29 }
    requires rows { IndexRows rows.now }
    requires signal_bound { signal < 3 }
    ensures { Along r.old (first_gain mode signal x.old) (of_symbols 2) x.new r.new }
{
    let relative = mode == 2;
    if relative {
        x.gains[0] = r.symbol_run(delta_gain_row_run(rows)) as i8;
    } else {
        let high = r.symbol_run(gain_row_run(rows, signal));
        let low = r.symbol_run(gain_low_row_run(rows));
        x.gains[0] = (high * 8 + low) as i8;
    }
}

// The gains past the first.
fn more_gains(r: &mut Reader, rows: &[u8], x: &mut Indices, n: usize)
    requires few { r.old.state.total ≤ 2 ^ 29 }
    requires rows { IndexRows rows.now }
    requires subframes { Subframes n }
    ensures { Along r.old (more_gains (n - 1) 1 x.old) (of_symbols 3) x.new r.new }
{
    for k in 1..n {
        x.gains[k] = r.symbol_run(delta_gain_row_run(rows)) as i8;
    }
}

pub fn gains_run(
    r: &mut Reader,
    rows: &[u8],
    x: &mut Indices,
    mode: u32,
    subframes: u32,
    signal: u32,
)
    requires few { r.old.state.total ≤ 2 ^ 28 }
    requires rows { IndexRows rows.now }
    requires subframes { Subframes subframes × (signal < 3) }
    ensures { Along r.old (gains mode subframes signal x.old) (of_symbols 5) x.new r.new }
{
    first_gain(r, rows, x, mode, signal);
    more_gains(r, rows, x, subframes as usize);
}
