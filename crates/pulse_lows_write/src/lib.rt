// The low bits of a block's pulses, written as the reader reads them (RFC 6716, section 4.2.7.8.4): the third loop of the crate's
// encode_pulses.rs. The row is lent.
#![tactic(auto)]

ghost use Rattle.std.specs.Prelude.{◌≡◌, map, ◌/◌, ◌^◌, ◌<◌, ◌≤◌, nat_abs, length};
ghost use Rattle.sheet.specs.Directory.{low_bit_row};
ghost use Rattle.entcode.specs.Flat.{out};
ghost use Rattle.entcode.specs.Inner.Writing.{Core};
ghost use Rattle.tree.specs.Inner.Growth.{of_symbols};
ghost use Rattle.tree.specs.Inner.Told.{Told};
ghost use Rattle.silk.specs.PulseSyntax.{each, low_bits};
ghost use Rattle.silk.specs.PulseWriting.{shifted_by};

use entcode::Enc;
use pulse_magnitude::magnitude;

// The n low bits of a magnitude.
fn low_bits_tell(buf: &mut [u8], from: Enc, row: &[u8], m: u32, n: u32) -> Enc
    requires core { Core (out buf.old from) }
    requires total_bound { from.total ≤ 2 ^ 29 }
    requires row_value { (row.now ≡ low_bit_row) × (n ≤ 10) }
    ensures { Told (out buf.old from) m (low_bits n (m / 2 ^ n)) (of_symbols 10) (out buf.new result) }
{
    let mut w = from;
    for k in (0..n).rev() {
        let bit = (m >> k) % 2;
        w = entenc_run::ec_enc_icdf_run(buf, w, bit, row, 8);
    }
    w
}

// The n low bits of each magnitude of a block.
fn all_lows_tell(buf: &mut [u8], from: Enc, row: &[u8], pulses: &[i16], n: u32) -> Enc
    requires core { Core (out buf.old from) }
    requires total_bound { from.total ≤ 2 ^ 28 }
    requires row_value { (row.now ≡ low_bit_row) × (n ≤ 10) }
    requires pulses_len { length pulses.now ≡ 16 }
    ensures { Told (out buf.old from) (map nat_abs pulses.now)
        (each 0 (low_bits n) (shifted_by n pulses.now)) (of_symbols 160) (out buf.new result) }
{
    let mut w = from;
    for k in 0..16 {
        w = low_bits_tell(buf, w, row, magnitude(pulses[k]), n);
    }
    w
}

// The same, with nothing to do for a block that has none.
pub fn block_lows_tell_run(buf: &mut [u8], w: Enc, row: &[u8], pulses: &[i16], n: u32) -> Enc
    requires core { Core (out buf.old w) }
    requires total_bound { w.total ≤ 2 ^ 28 }
    requires row_value { (row.now ≡ low_bit_row) × (n ≤ 10) }
    requires pulses_len { length pulses.now ≡ 16 }
    ensures { Told (out buf.old w) (map nat_abs pulses.now)
        (each 0 (low_bits n) (shifted_by n pulses.now)) (of_symbols 160) (out buf.new result) }
{
    if n == 0 {
        w
    } else {
        all_lows_tell(buf, w, row, pulses, n)
    }
}
