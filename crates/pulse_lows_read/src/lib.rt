// The low bits of a block's pulses, read (RFC 6716, section 4.2.7.8.4): for each place all of them, highest first.
// The third loop of the crate's decode_pulses.rs. The row is lent.
#![tactic(auto)]

ghost use Rattle.std.specs.Prelude.{◌≡◌, ◌+◌, ◌^◌, ◌<◌, ◌≤◌, length};
ghost use Rattle.lists.specs.AtMost.{AtMost};
ghost use Rattle.sheet.specs.Directory.{low_bit_row};
ghost use Rattle.tree.specs.Inner.Growth.{of_symbols};
ghost use Rattle.silk.specs.PulseSyntax.{each, low_bits};
ghost use Rattle.silk.specs.Inner.Pulses.{Placed, mags, Natural};
ghost use Rattle.symbol_reader.specs.Inner.{Along};

use symbol_reader::Reader;

// n low bits behind the magnitude m.
fn low_bits(r: &mut Reader, row: &[u8], m: u32, n: u32) -> u32
    requires total_bound { r.old.state.total ≤ 2 ^ 29 }
    requires row_value { row.now ≡ low_bit_row }
    requires m_bound { (m ≤ 16) × (n ≤ 10) }
    ensures along { Along r.old (low_bits n m) (of_symbols 10) result r.new }
    ensures value_bound { result ≤ 17407 }
{
    let mut v = m;
    for _ in 0..n {
        v = 2 * v + r.symbol_run(row);
    }
    v
}

// n low bits behind each magnitude of a block.
fn all_lows(r: &mut Reader, row: &[u8], places: &mut [i16], n: u32)
    requires total_bound { r.old.state.total ≤ 2 ^ 28 }
    requires row_value { (row.now ≡ low_bit_row) × (n ≤ 10) }
    requires natural { Natural places.old × (length places.old ≡ 16) × AtMost 16 (mags places.old) }
    ensures placed { Placed r.old.packet.now r.old.state (each 0 (low_bits n) (mags places.old)) (of_symbols 160) places.new r.new.state }
    ensures packet { r.new.packet ≡ r.old.packet }
{
    for k in 0..16 {
        places[k] = low_bits(r, row, places[k] as u32, n) as i16;
    }
}

// The same, with nothing to do for a block that has none.
pub fn block_lows_run(r: &mut Reader, row: &[u8], places: &mut [i16], n: u32)
    requires total_bound { r.old.state.total ≤ 2 ^ 28 }
    requires row_value { (row.now ≡ low_bit_row) × (n ≤ 10) }
    requires natural { Natural places.old × (length places.old ≡ 16) × AtMost 16 (mags places.old) }
    ensures placed { Placed r.old.packet.now r.old.state (each 0 (low_bits n) (mags places.old)) (of_symbols 160) places.new r.new.state }
    ensures packet { r.new.packet ≡ r.old.packet }
{
    if n != 0 {
        all_lows(r, row, places, n);
    }
}
