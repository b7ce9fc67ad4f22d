// Lag, contour, filters and scale of a voiced frame written (RFC 6716, section 4.2.7.6): what a record whose fields
// lie in their ranges says of them, each by the row that its reader reads. The rows are lent by the caller.
#![tactic(auto)]

ghost use Rattle.std.specs.Prelude.{◌^◌};
ghost use Rattle.entcode.specs.Flat.{out};
ghost use Rattle.tree.specs.Inner.Growth.{of_symbols};
ghost use Rattle.tree.specs.Inner.Told.{Told};
ghost use Rattle.silk.specs.Inner.Indices.{Writing, Rate, Subframes, WritesPitch};
ghost use Rattle.silk.specs.IndexSyntax.{pitch};

use entcode::Enc;
use index_filters_write::{period_tell_run, scale_tell_run};
use index_lag_write::{contour_tell_run, lag_tell_run};
use silk::{Indices, Setting};

// The lag of the frame before does not matter to an absolute lag.
pub fn pitch_tell_run(buf: &mut [u8], w: Enc, rows: &[u8], x: Indices, s: Setting) -> Enc
    requires writing { Writing (out buf.old w) rows.now (2 ^ 27) }
    requires rate { Rate s.khz × Subframes s.subframes × WritesPitch s x }
    ensures { Told (out buf.old w) x (pitch s x) (of_symbols 10) (out buf.new result) }
{
    let relative = (s.mode == 2) & (s.prevtype == 2);
    let l = lag_tell_run(buf, w, rows, x, relative, s.khz);
    let c = contour_tell_run(buf, l, rows, x, s.khz, s.subframes);
    let p = period_tell_run(buf, c, rows, x, s.subframes);
    scale_tell_run(buf, p, rows, x, s.mode)
}
