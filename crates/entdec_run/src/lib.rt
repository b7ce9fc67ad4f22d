// The symbols of a reader of the range coder (RFC 6716, section 4.1): a state by value beside the packet, names as in
// the crate's entdec.rs. These functions carry what they ask in `requires` and test nothing again; the calls that
// test are in the room `entdec`, what is taken from the packet is in `entdec_bytes`, and the search of a table in
// `entdec_search`.
#![tactic(auto)]

ghost use Rattle.std.specs.Prelude.{◌≡◌, cond, suc, ◌^◌, ◌<◌, ◌≤◌, leb};
ghost use Rattle.icdf.specs.Rule.{Icdf};
ghost use Rattle.entcode.specs.Models.{bit, raw, num, tab, raw_bits};
ghost use Rattle.entcode.specs.Cuts.{upper, lower};
ghost use Rattle.entcode.specs.Reader.{at_end, cut_down, sought};
ghost use Rattle.entcode.specs.Reading.{gives};
ghost use Rattle.entcode.specs.Inner.Reading.{Core, Holding, Took};

use entcode::{Dec, Decoded, part_top_run};
use entdec_bytes::{cut_run, raw_bits_run};
use entdec_search::find_part_run;

// A bit of exponent lp.
pub fn ec_dec_bit_logp_run(packet: &[u8], d: Dec, lp: u32) -> Decoded
    requires core { Core packet.now d }
    requires total_bound { d.total ≤ 2 ^ 30 }
    requires le_lp { (1 ≤ lp) × (lp ≤ 15) }
    ensures { Took packet.now (bit lp) d result }
{
    let part = d.rng >> lp;
    if d.val < part {
        Decoded::of(1, cut_run(packet, d, part, 0))
    } else {
        Decoded::of(0, cut_run(packet, d, d.rng, part))
    }
}

// A symbol of an inverse table.
pub fn ec_dec_icdf_run(packet: &[u8], d: Dec, table: &[u8], scale: u32) -> Decoded
    requires core { Core packet.now d }
    requires total_bound { d.total ≤ 2 ^ 30 }
    requires icdf { Icdf scale table.now }
    ensures { Took packet.now (tab scale table.now) d result }
{
    let unit = d.rng >> scale;
    let p = find_part_run(table, scale, unit, d.val, d.rng);
    let state = cut_run(packet, d, p.top, p.low);
    Decoded::of(p.symbol as u32, state)
}

// A symbol of a row of SILK: all of them have scale 8.
pub fn ec_dec_icdf8_run(packet: &[u8], d: Dec, row: &[u8]) -> Decoded
    requires core { Core packet.now d }
    requires total_bound { d.total ≤ 2 ^ 30 }
    requires icdf { Icdf 8 row.now }
    ensures { Took packet.now (tab 8 row.now) d result }
{
    ec_dec_icdf_run(packet, d, row, 8)
}

// n raw bits, from the packet's end.
pub fn ec_dec_bits_run(packet: &[u8], d: Dec, n: u32) -> Decoded
    requires core { Core packet.now d }
    requires total_bound { d.total ≤ 2 ^ 30 }
    requires le_n { (1 ≤ n) × (n ≤ 25) }
    ensures { Took packet.now (raw n) d result }
{
    raw_bits_run(packet, d, n)
}

// ---- bounded numbers

// The number that the value stands for, out of ft.
fn ec_decode(d: Dec, ft: u32) -> u32
    requires { (2 ^ 23 < d.rng) × (d.val < 2 ^ 31) × (1 ≤ ft) × (ft ≤ 256) }
    ensures { result ≡ sought d.rng d.val ft }
{
    let step = d.rng / ft;
    ft - (d.val / step + 1).min(ft)
}

// The piece [fl, fl + 1) of ft, which holds the value, is kept.
fn ec_dec_update(packet: &[u8], d: Dec, fl: u32, ft: u32) -> Dec
    requires core { Core packet.now d }
    requires total_bound { d.total ≤ 2 ^ 30 }
    requires fl_lt_ft { (fl < ft) × Holding d (upper d.rng fl ft) (lower d.rng (suc fl) ft) }
    ensures { result ≡ cut_down packet.now d (upper d.rng fl ft) (lower d.rng (suc fl) ft) }
{
    let step = d.rng / ft;
    let low = step * (ft - (fl + 1));
    let top = part_top_run(d.rng, fl, ft);
    cut_run(packet, d, top, low)
}

// How many bits of a number below ft are raw.
fn raw_count(ft: u32) -> u32
    requires { 1 ≤ ft }
    ensures { result ≡ raw_bits ft }
{
    bitlen::ec_ilog(ft - 1).saturating_sub(8)
}

// A number of at most top, or top and the error.
fn clamp(d: Dec, number: u32, top: u32, step: u32) -> Decoded
    ensures { result ≡ cond (leb number top) (gives number (at_end d step d.error)) (gives top (at_end d step 1)) }
{
    let state = Dec { ext: step, ..d };
    if number <= top {
        Decoded::of(number, state)
    } else {
        Decoded::of(top, Dec { error: 1, ..state })
    }
}

// A number below ft.
pub fn ec_dec_uint_run(packet: &[u8], d: Dec, ft: u32) -> Decoded
    requires core { Core packet.now d }
    requires total_bound { d.total ≤ 2 ^ 30 }
    requires le_ft { (2 ≤ ft) × (ft < 2 ^ 32) }
    ensures { Took packet.now (num ft) d result }
{
    let raws = raw_count(ft);
    let top = ft - 1;
    let parts = (top >> raws) + 1;
    let step = d.rng / parts;
    let k = ec_decode(d, parts);
    let q = ec_dec_update(packet, d, k, parts);
    let x = raw_bits_run(packet, q, raws);
    let number = (k << raws) + x.value;
    clamp(x.state, number, top, step)
}
