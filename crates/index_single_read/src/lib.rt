// Type, interpolation and seed of a frame read, a symbol each (RFC 6716, sections 4.2.7.3, 4.2.7.5.5 and 4.2.7.7), as
// in the crate's decode_indices.rs. The rows are lent by the caller, and so are the reader and the record that is filled.
#![tactic(auto)]

ghost use Rattle.std.specs.Prelude.{◌^◌, ◌<◌, ◌≤◌};
ghost use Rattle.symbol_reader.specs.Inner.{Along};
ghost use Rattle.tree.specs.Inner.Growth.{of_symbols};
ghost use Rattle.silk.specs.Inner.Indices.{IndexRows};
ghost use Rattle.silk.specs.IndexSyntax.{kind, interpolation, seed};

use index_layout::{interpolation_row_run, seed_row_run, type_row_run};
use silk::Indices;
use symbol_reader::Reader;

// Type and offset as one number.
pub fn kind_run(r: &mut Reader, rows: &[u8], active: u32) -> u32
    requires few { r.old.state.total ≤ 2 ^ 29 }
    requires rows { IndexRows rows.now }
    requires active_bound { active < 2 }
    ensures ran { Along r.old (kind active) (of_symbols 1) result r.new }
    ensures value_bound { result < 6 }
{
    r.symbol_run(type_row_run(rows, active)) + active * 2
}

// 4 for 2 subframes.
pub fn interpolation_run(r: &mut Reader, rows: &[u8], x: &mut Indices, subframes: u32)
    requires few { r.old.state.total ≤ 2 ^ 29 }
    requires rows { IndexRows rows.now }
    ensures { Along r.old (interpolation subframes x.old) (of_symbols 1) x.new r.new }
{
    if subframes == 4 {
        x.interp = r.symbol_run(interpolation_row_run(rows)) as i8;
    } else {
        x.interp = 4;
    }
}

pub fn seed_run(r: &mut Reader, rows: &[u8], x: &mut Indices)
    requires few { r.old.state.total ≤ 2 ^ 29 }
    requires rows { IndexRows rows.now }
    ensures { Along r.old (seed x.old) (of_symbols 1) x.new r.new }
{
    x.seed = r.symbol_run(seed_row_run(rows)) as i8;
}
