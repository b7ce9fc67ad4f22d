// The symbols of a writer of the range coder (RFC 6716, section 5.1): a state by value beside the buffer. The calls
// here ask for a state that a write may begin with and test nothing again; each hands on what the next one asks. The
// calls that test are in the room `entenc`; bytes go out in `entenc_bytes`, and finishing is in `entenc_finish`.
// Names as in the crate's entenc.rs; its ec_enc_normalize is `normalize`.
#![tactic(auto)]

ghost use Rattle.std.specs.Prelude.{◌≡◌, ℕ, suc, ◌*◌, ◌^◌, ◌<◌, ◌≤◌, length, slice_index};
ghost use Rattle.icdf.specs.Rule.{Icdf, Writable};
ghost use Rattle.entcode.specs.Models.{bit, raw, num, tab};
ghost use Rattle.entcode.specs.Cuts.{upper, lower};
ghost use Rattle.entcode.specs.Inner.Reading.{top_of};
ghost use Rattle.entcode.specs.Flat.{out};
ghost use Rattle.entcode.specs.Inner.Writing.{Core, Stepped, Wrote, cut};

use crate::front::keep;
use crate::tail::append;
use entcode::{Enc, part_top_run};

mod front; // front.rt: cuts of the range
mod tail; // tail.rt: raw bits

// A bit that is 1 with probability 1 / 2^lp.
pub fn ec_enc_bit_logp_run(buf: &mut [u8], w: Enc, v: u32, lp: u32) -> Enc
    requires core { Core (out buf.old w) }
    requires total_bound { w.total ≤ 2 ^ 30 }
    requires le_lp { (1 ≤ lp) × (lp ≤ 15) × (v ≤ 1) }
    ensures { Wrote (out buf.old w) (record { model = bit lp; value = v }) (out buf.new result) }
{
    let part = w.rng >> lp;
    if v == 0 {
        keep(buf, w, w.rng, part)
    } else {
        keep(buf, w, part, 0)
    }
}

// The upper end of symbol k's part. The entry before is read for the first symbol too: whether it is the first can't
// be guessed ahead, and the choice between two numbers needs no jump.
fn symbol_top(table: &[u8], k: u32, unit: u32, rng: u32) -> u32
    requires k_in_bounds { k < length table.now }
    requires by_index { (i : ℕ) → unit * slice_index table.now i ≤ 2 ^ 31 }
    ensures { result ≡ top_of rng unit table.now k }
{
    let before = (k as usize).saturating_sub(1);
    let part = unit * u32::from(table[before]);
    if k == 0 { rng } else { part }
}

// Symbol k of an inverse table. The first and the others share one `keep`: with two of them this is too large to be
// inlined, and twice as slow.
pub fn ec_enc_icdf_run(buf: &mut [u8], w: Enc, k: u32, table: &[u8], scale: u32) -> Enc
    requires core { Core (out buf.old w) }
    requires total_bound { w.total ≤ 2 ^ 30 }
    requires icdf { Icdf scale table.now × Writable scale table.now k }
    ensures { Wrote (out buf.old w) (record { model = tab scale table.now; value = k }) (out buf.new result) }
{
    let unit = w.rng >> scale;
    let low = unit * u32::from(table[k as usize]);
    let top = symbol_top(table, k, unit, w.rng);
    keep(buf, w, top, low)
}

// A symbol of a row of SILK: all of them have scale 8.
pub fn ec_enc_icdf8_run(buf: &mut [u8], w: Enc, k: u32, row: &[u8]) -> Enc
    requires core { Core (out buf.old w) }
    requires total_bound { w.total ≤ 2 ^ 30 }
    requires icdf { Icdf 8 row.now × Writable 8 row.now k }
    ensures { Wrote (out buf.old w) (record { model = tab 8 row.now; value = k }) (out buf.new result) }
{
    ec_enc_icdf_run(buf, w, k, row, 8)
}

// n raw bits.
pub fn ec_enc_bits_run(buf: &mut [u8], w: Enc, v: u32, n: u32) -> Enc
    requires core { Core (out buf.old w) }
    requires total_bound { w.total ≤ 2 ^ 30 }
    requires le_n { (1 ≤ n) × (n ≤ 25) × (v < 2 ^ n) }
    ensures { Wrote (out buf.old w) (record { model = raw n; value = v }) (out buf.new result) }
{
    append(buf, w, v, n)
}

// Part c of ft equal parts of the range, counted from its bottom.
fn keep_part(buf: &mut [u8], w: Enc, c: u32, ft: u32) -> Enc
    requires core { Core (out buf.old w) }
    requires total_bound { w.total ≤ 2 ^ 30 }
    requires c_lt_ft { (c < ft) × (ft ≤ 256) }
    ensures { Stepped 16 (out buf.old w)
        (cut (out buf.old w) (upper w.rng c ft) (lower w.rng (suc c) ft)) (out buf.new result) }
{
    let low = w.rng / ft * (ft - (c + 1));
    let top = part_top_run(w.rng, c, ft);
    keep(buf, w, top, low)
}

// A number below ft: one of at most 256 equal parts, and the bits below the first eight raw.
pub fn ec_enc_uint_run(buf: &mut [u8], w: Enc, v: u32, ft: u32) -> Enc
    requires core { Core (out buf.old w) }
    requires total_bound { w.total ≤ 2 ^ 30 }
    requires le_ft { (2 ≤ ft) × (v < ft) }
    ensures { Wrote (out buf.old w) (record { model = num ft; value = v }) (out buf.new result) }
{
    let last = ft - 1;
    let digits = bitlen::ec_ilog(last);
    if 8 < digits {
        let n = digits - 8;
        let parts = (last >> n) + 1;
        let q = keep_part(buf, w, v >> n, parts);
        append(buf, q, v % (1u32 << n), n)
    } else {
        keep_part(buf, w, v, ft)
    }
}
