// The calls on a reader (document 01): each tests packet, state and its own numbers once, and answers the first
// refusal or what the room `entdec_run` reads. Names as in the crate's entdec.rs.
#![tactic(auto)]

ghost use Rattle.std.specs.Prelude.{◌≡◌};
ghost use Rattle.entcode.specs.Models.{bit, raw, num, tab};
ghost use Rattle.entcode.specs.Reading.{dec_sym, dec_tell, dec_open};

use entcode::{Dec, Decoded, LONGEST, nought_reader};
use entdec_gate::gate;
use entdec_rules::{bit_rule, bits_rule, uint_rule};
use refusals::Refusal;

// A reader at the packet's start.
pub fn ec_dec_init(packet: &[u8]) -> Decoded
    ensures { result ≡ dec_open packet.now }
{
    if packet.len() <= LONGEST {
        Decoded::of(0, entdec_bytes::ec_dec_init_run(packet))
    } else {
        Decoded::refused(Refusal::TooLong, nought_reader())
    }
}

// The bits taken so far, less those that the range still holds.
pub fn ec_tell(packet: &[u8], d: Dec) -> Decoded
    ensures { result ≡ dec_tell packet.now d }
{
    match gate(packet, d) {
        Ok(()) => Decoded::of(d.total - bitlen::ec_ilog(d.rng), d),
        Err(refusal) => Decoded::refused(refusal, d),
    }
}

// A bit that is 1 with probability 1 / 2^lp.
pub fn ec_dec_bit_logp(packet: &[u8], d: Dec, lp: u32) -> Decoded
    ensures { result ≡ dec_sym packet.now d (bit lp) }
{
    match gate(packet, d).and(bit_rule(lp)) {
        Ok(()) => entdec_run::ec_dec_bit_logp_run(packet, d, lp),
        Err(refusal) => Decoded::refused(refusal, d),
    }
}

// A symbol of an inverse table. Inlined into each of its two callers: the exported call's answer is not copied once more then.
#[inline(always)]
fn icdf_read(packet: &[u8], d: Dec, table: &[u8], scale: u32) -> Decoded
    ensures { result ≡ dec_sym packet.now d (tab scale table.now) }
{
    match gate(packet, d).and(icdf::icdf_rule(table, scale)) {
        Ok(()) => entdec_run::ec_dec_icdf_run(packet, d, table, scale),
        Err(refusal) => Decoded::refused(refusal, d),
    }
}

// For the exported call.
pub fn ec_dec_icdf(packet: &[u8], d: Dec, table: &[u8], scale: u32) -> Decoded
    ensures { result ≡ dec_sym packet.now d (tab scale table.now) }
{
    icdf_read(packet, d, table, scale)
}

// For a packet view.
pub fn ec_dec_icdf_of_view(packet: &[u8], d: Dec, table: &[u8], scale: u32) -> Decoded
    ensures { result ≡ dec_sym packet.now d (tab scale table.now) }
{
    icdf_read(packet, d, table, scale)
}

// A number below ft.
pub fn ec_dec_uint(packet: &[u8], d: Dec, ft: u32) -> Decoded
    ensures { result ≡ dec_sym packet.now d (num ft) }
{
    match gate(packet, d).and(uint_rule(ft)) {
        Ok(()) => entdec_run::ec_dec_uint_run(packet, d, ft),
        Err(refusal) => Decoded::refused(refusal, d),
    }
}

// n raw bits, from the packet's end.
pub fn ec_dec_bits(packet: &[u8], d: Dec, n: u32) -> Decoded
    ensures { result ≡ dec_sym packet.now d (raw n) }
{
    match gate(packet, d).and(bits_rule(n)) {
        Ok(()) => entdec_run::ec_dec_bits_run(packet, d, n),
        Err(refusal) => Decoded::refused(refusal, d),
    }
}
