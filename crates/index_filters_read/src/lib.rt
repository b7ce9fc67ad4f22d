// Filters of a voiced frame and their scale read (RFC 6716, sections 4.2.7.6.2 and 4.2.7.6.3), as in the crate's
// decode_indices.rs. The rows are lent by the caller, and so are the reader and the record that is filled.
#![tactic(auto)]

ghost use Rattle.std.specs.Prelude.{◌^◌, ◌<◌, ◌≤◌};
ghost use Rattle.symbol_reader.specs.Inner.{Along};
ghost use Rattle.tree.specs.Inner.Growth.{of_symbols};
ghost use Rattle.silk.specs.Inner.Indices.{IndexRows, Subframes};
ghost use Rattle.silk.specs.IndexSyntax.{filters, period, scale};

use index_layout::{filter_row_run, period_row_run, scale_row_run};
use silk::Indices;
use symbol_reader::Reader;

// A filter for each of n subframes, of the row of period p.
fn filter_indices(r: &mut Reader, rows: &[u8], x: &mut Indices, p: u32, n: usize)
    requires few { r.old.state.total ≤ 2 ^ 29 }
    requires rows { IndexRows rows.now }
    requires p_bound { (p < 3) × Subframes n }
    ensures { Along r.old (filters p n 0 x.old) (of_symbols 4) x.new r.new }
{
    let row = filter_row_run(rows, p);
    for k in 0..n {
        x.ltp[k] = r.symbol_run(row) as i8;
    }
}

pub fn period_index_run(r: &mut Reader, rows: &[u8], x: &mut Indices, subframes: u32)
    requires few { r.old.state.total ≤ 2 ^ 28 }
    requires rows { IndexRows rows.now }
    requires subframes { Subframes subframes }
    ensures { Along r.old (period subframes x.old) (of_symbols 5) x.new r.new }
{
    let p = r.symbol_run(period_row_run(rows));
    x.period = p as i8;
    filter_indices(r, rows, x, p, subframes as usize);
}

// 0 but in mode 0.
pub fn scale_index_run(r: &mut Reader, rows: &[u8], x: &mut Indices, mode: u32)
    requires few { r.old.state.total ≤ 2 ^ 29 }
    requires rows { IndexRows rows.now }
    ensures { Along r.old (scale mode x.old) (of_symbols 1) x.new r.new }
{
    let coded = mode == 0;
    if coded {
        x.scale = r.symbol_run(scale_row_run(rows)) as i8;
    } else {
        x.scale = 0;
    }
}
