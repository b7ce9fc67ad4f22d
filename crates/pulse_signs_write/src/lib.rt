// The signs of a block's pulses, written as the reader reads them (RFC 6716, section 4.2.7.8.5). Names as in the
// crate's code_signs.rs. The block's row is lent.
#![tactic(auto)]

ghost use Rattle.std.specs.Prelude.{◌≡◌, cond, map, ◌+◌, ◌^◌, ◌<◌, ◌≤◌, pos, nat_abs, length, take};
ghost use Rattle.std.specs.Int.Signed.{lt_z};
ghost use Rattle.icdf.specs.Rule.{Icdf, Writable};
ghost use Rattle.entcode.specs.Flat.{out};
ghost use Rattle.entcode.specs.Inner.Writing.{Core};
ghost use Rattle.tree.specs.Inner.Growth.{of_symbols};
ghost use Rattle.tree.specs.Inner.Told.{Told};
ghost use Rattle.silk.specs.PulseSyntax.{each, sign};
ghost use Rattle.pulse_signs_write.specs.Inner.{sign_of, signs_said};

use entcode::Enc;

// The symbol of a pulse's sign.
fn sign_said(pulse: i16) -> u8
    ensures { result ≡ cond (lt_z pulse (pos 0)) 0 1 }
{
    if pulse < 0 { 0 } else { 1 }
}

// The place of the next symbol: a pulse of 0 says none. Both arms are numbers, so no jump hangs on a pulse.
fn next_place(n: usize, pulse: i16) -> usize
    requires { n < 16 }
    ensures { result ≡ n + length (sign_of pulse) }
{
    if pulse == 0 { n } else { n + 1 }
}

// The symbols of a block's signs are put into symbols, and counted. What is stored for a pulse of 0 is overwritten or
// not counted.
fn signs_said(symbols: &mut [u8], pulses: &[i16]) -> usize
    requires { (length symbols.old ≡ 16) × (length pulses.now ≡ 16) }
    ensures { (result ≤ 16) × (take result symbols.new ≡ signs_said pulses.now) }
{
    let mut n: usize = 0;
    for k in 0..16 {
        let pulse = pulses[k];
        symbols[n] = sign_said(pulse);
        n = next_place(n, pulse);
    }
    n
}

// The signs of the pulses of a block.
pub fn silk_encode_signs_run(buf: &mut [u8], from: Enc, row: &[u8], pulses: &[i16]) -> Enc
    requires core { Core (out buf.old from) }
    requires total_bound { from.total ≤ 2 ^ 29 }
    requires icdf { Icdf 8 row.now }
    requires writable { Writable 8 row.now 0 × Writable 8 row.now 1 }
    requires pulses_len { length pulses.now ≡ 16 }
    ensures { Told (out buf.old from) pulses.now
        (each (pos 0) (sign row.now) (map nat_abs pulses.now)) (of_symbols 16) (out buf.new result) }
{
    let mut symbols = [0u8; 16];
    let count = signs_said(&mut symbols, pulses);
    let mut w = from;
    for symbol in &symbols[..count] {
        w = entenc_run::ec_enc_icdf_run(buf, w, u32::from(*symbol), row, 8);
    }
    w
}
