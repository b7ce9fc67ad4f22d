// Lag, contour, filters and scale of a voiced frame read (RFC 6716, section 4.2.7.6), as in the crate's
// decode_indices.rs. The rows are lent by the caller, and so are the reader and the record that is filled.
#![tactic(auto)]

ghost use Rattle.std.specs.Prelude.{◌^◌, ◌≤◌};
ghost use Rattle.symbol_reader.specs.Inner.{Along};
ghost use Rattle.tree.specs.Inner.Growth.{of_symbols};
ghost use Rattle.silk.specs.Inner.Indices.{IndexRows, Rate, Subframes};
ghost use Rattle.silk.specs.IndexSyntax.{pitch};

use index_filters_read::{period_index_run, scale_index_run};
use index_lag_read::{contour_index_run, lag_index_run};
use silk::{Indices, Setting};
use symbol_reader::Reader;

pub fn pitch_run(r: &mut Reader, rows: &[u8], x: &mut Indices, s: Setting)
    requires few { r.old.state.total ≤ 2 ^ 27 }
    requires rows { IndexRows rows.now }
    requires rate { Rate s.khz × Subframes s.subframes }
    ensures { Along r.old (pitch s x.old) (of_symbols 10) x.new r.new }
{
    let relative = (s.mode == 2) & (s.prevtype == 2);
    lag_index_run(r, rows, x, relative, s.khz, s.prevlag);
    contour_index_run(r, rows, x, s.khz, s.subframes);
    period_index_run(r, rows, x, s.subframes);
    scale_index_run(r, rows, x, s.mode);
}
