// The signs of a block's pulses, read (RFC 6716, section 4.2.7.8.5): one for each place that is not 0; symbol 0 is
// minus. Names as in the crate's code_signs.rs. The block's row is lent.
#![tactic(auto)]

ghost use Rattle.std.specs.Prelude.{◌≡◌, true, ◌^◌, ◌<◌, ◌≤◌, pos, nat_abs, length, replicate};
ghost use Rattle.icdf.specs.Rule.{Icdf};
ghost use Rattle.tree.specs.Inner.Growth.{of_symbols};
ghost use Rattle.silk.specs.PulseSyntax.{each, sign};
ghost use Rattle.silk.specs.Inner.Pulses.{mags, Natural};
ghost use Rattle.symbol_reader.specs.Inner.{Along};
ghost use Rattle.pulse_signs_read.specs.Inner.{Gathered};

use symbol_reader::Reader;

// The pulse of magnitude m, which is not 0.
fn decode_sign(r: &mut Reader, row: &[u8], m: i16) -> i16
    requires total_bound { r.old.state.total ≤ 2 ^ 30 }
    requires icdf { Icdf 8 row.now }
    requires m_value { (m ≡ pos (nat_abs m)) × (1 ≤ nat_abs m) }
    ensures { Along r.old (sign row.now (nat_abs m)) (of_symbols 1) result r.new }
{
    let minus = r.symbol_run(row) == 0;
    if minus { -m } else { m }
}

// The places that have a pulse, in their order, and how many. Each place is stored, and the next one takes its place
// where it has none: no jump depends on them.
fn pulse_places(places: &[i16], at: &mut [u8; 16]) -> usize
    requires { (length places.now ≡ 16) × (length at.old ≡ 16) }
    ensures { Gathered places.now at.new result 16 }
{
    let mut n: usize = 0;
    for k in 0..16 {
        at[n] = k as u8;
        n += usize::from(places[k] != 0);
    }
    n
}

// The pulses of a block, from their magnitudes.
fn all_signs(r: &mut Reader, row: &[u8], places: &mut [i16])
    requires total_bound { r.old.state.total ≤ 2 ^ 29 }
    requires icdf { Icdf 8 row.now }
    requires natural { Natural places.old × (length places.old ≡ 16) }
    ensures { Along r.old (each (pos 0) (sign row.now) (mags places.old)) (of_symbols 16) places.new r.new }
{
    let mut at = [0u8; 16];
    let n = pulse_places(places, &mut at);
    for k in &at[..n] {
        let k = usize::from(*k);
        places[k] = decode_sign(r, row, places[k]);
    }
}

// Whether no place has a pulse: all are looked at, so that no jump depends on them. From the end: upward, a frame's pulses
// took 3 % longer to read (x86-64).
fn no_pulse(places: &[i16]) -> bool
    ensures { result ≡ true → places.now ≡ replicate (length places.now) (pos 0) }
{
    let mut none = true;
    for k in (0..places.len()).rev() {
        none = (places[k] == 0) & none;
    }
    none
}

// The same. Where the counts say that the block is empty, its places are looked at side by side, and no sign is asked for.
pub fn silk_decode_signs_run(r: &mut Reader, row: &[u8], places: &mut [i16], empty: bool)
    requires total_bound { r.old.state.total ≤ 2 ^ 29 }
    requires icdf { Icdf 8 row.now }
    requires natural { Natural places.old × (length places.old ≡ 16) }
    ensures { Along r.old (each (pos 0) (sign row.now) (mags places.old)) (of_symbols 16) places.new r.new }
{
    if empty && no_pulse(places) {
        return;
    }
    all_signs(r, row, places);
}
