// Type, interpolation and seed of a frame written, a symbol each (RFC 6716, sections 4.2.7.3, 4.2.7.5.5 and 4.2.7.7):
// what a record whose fields lie in their ranges says of them, each by the row that its reader reads. The rows are
// lent by the caller.
#![tactic(auto)]

ghost use Rattle.std.specs.Prelude.{◌^◌, ◌<◌};
ghost use Rattle.entcode.specs.Flat.{out};
ghost use Rattle.tree.specs.Inner.Growth.{of_symbols};
ghost use Rattle.tree.specs.Inner.Told.{Told};
ghost use Rattle.silk.specs.Inner.Indices.{Writing, Upto, Kind};
ghost use Rattle.silk.specs.IndexSyntax.{kind_of, kind, interpolation, seed};

use entcode::Enc;
use entenc_run::ec_enc_icdf8_run;
use index_layout::{interpolation_row_run, seed_row_run, type_row_run};
use silk::Indices;

// Type and offset as one number.
pub fn kind_tell_run(buf: &mut [u8], w: Enc, rows: &[u8], x: Indices, active: u32) -> Enc
    requires writing { Writing (out buf.old w) rows.now (2 ^ 29) }
    requires active_bound { (active < 2) × Kind active (kind_of x) }
    requires upto { Upto 2 x.signal × Upto 1 x.offset }
    ensures { Told (out buf.old w) x (kind active) (of_symbols 1) (out buf.new result) }
{
    let base = active * 2;
    let kind = (x.signal as u32) * 2 + (x.offset as u32);
    ec_enc_icdf8_run(buf, w, kind - base, type_row_run(rows, active))
}

// Nothing for 2 subframes.
pub fn interpolation_tell_run(
    buf: &mut [u8],
    w: Enc,
    rows: &[u8],
    x: Indices,
    subframes: u32,
) -> Enc
    requires writing { Writing (out buf.old w) rows.now (2 ^ 29) }
    requires upto { Upto 4 x.interp }
    ensures { Told (out buf.old w) x (interpolation subframes x) (of_symbols 1) (out buf.new result) }
{
    if subframes == 4 {
        ec_enc_icdf8_run(buf, w, x.interp as u32, interpolation_row_run(rows))
    } else {
        w
    }
}

pub fn seed_tell_run(buf: &mut [u8], w: Enc, rows: &[u8], x: Indices) -> Enc
    requires writing { Writing (out buf.old w) rows.now (2 ^ 29) }
    requires upto { Upto 3 x.seed }
    ensures { Told (out buf.old w) x (seed x) (of_symbols 1) (out buf.new result) }
{
    ec_enc_icdf8_run(buf, w, x.seed as u32, seed_row_run(rows))
}
