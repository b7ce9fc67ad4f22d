// The public calls on a writer (document 01): each checks the state, then its own numbers, and runs only if nothing
// is refused. A refused call answers its number and value 0, hands the state back as it was, and touches no byte of
// the buffer. Names as in the crate's entenc.rs.
#![tactic(auto)]

ghost use Rattle.std.specs.Prelude.{◌≡◌};
ghost use Rattle.entcode.specs.Models.{bit, raw, num, tab};
ghost use Rattle.entcode.specs.Flat.{out};
ghost use Rattle.entcode.specs.Writing.{sent, enc_open, enc_tell, enc_sym, enc_done};

use entcode::{Enc, Encoded, LONGEST, nought_writer};
use entenc_gate::gate;
use entenc_rules::{bit_rule, bits_rule, uint_rule};
use refusals::Refusal;

// A fresh writer; a refused opening hands back the all-zero state. The fresh one is spelled out, so that LLVM takes
// most of it from a constant.
pub fn ec_enc_init(buf: &[u8]) -> Encoded
    ensures { sent buf.now result ≡ enc_open buf.now }
{
    if buf.len() <= LONGEST {
        Encoded::of(
            0,
            Enc {
                storage: buf.len() as u32,
                endoffs: 0,
                window: 0,
                wbits: 0,
                total: 33,
                offs: 0,
                rng: 0x8000_0000,
                val: 0,
                ext: 0,
                rem: -1,
                error: 0,
            },
        )
    } else {
        Encoded::refused(Refusal::TooLong, nought_writer())
    }
}

// The account: bits taken in all, less the bit length of the range.
pub fn ec_tell(buf: &[u8], w: Enc) -> Encoded
    ensures { sent buf.now result ≡ enc_tell (out buf.now w) }
{
    match gate(buf, w) {
        Ok(()) => Encoded::of(w.total - bitlen::ec_ilog(w.rng), w),
        Err(refusal) => Encoded::refused(refusal, w),
    }
}

// A bit that is 1 with probability 1 / 2^lp.
pub fn ec_enc_bit_logp(buf: &mut [u8], w: Enc, v: u32, lp: u32) -> Encoded
    ensures { sent buf.new result ≡ enc_sym (out buf.old w) (record { model = bit lp; value = v }) }
{
    match gate(buf, w).and(bit_rule(v, lp)) {
        Ok(()) => Encoded::of(0, entenc_run::ec_enc_bit_logp_run(buf, w, v, lp)),
        Err(refusal) => Encoded::refused(refusal, w),
    }
}

// Symbol k of an inverse table.
pub fn ec_enc_icdf(buf: &mut [u8], w: Enc, k: u32, table: &[u8], scale: u32) -> Encoded
    ensures { sent buf.new result ≡ enc_sym (out buf.old w) (record { model = tab scale table.now; value = k }) }
{
    match gate(buf, w).and(icdf::symbol_rule(table, scale, k)) {
        Ok(()) => Encoded::of(0, entenc_run::ec_enc_icdf_run(buf, w, k, table, scale)),
        Err(refusal) => Encoded::refused(refusal, w),
    }
}

// A number below ft.
pub fn ec_enc_uint(buf: &mut [u8], w: Enc, v: u32, ft: u32) -> Encoded
    ensures { sent buf.new result ≡ enc_sym (out buf.old w) (record { model = num ft; value = v }) }
{
    match gate(buf, w).and(uint_rule(v, ft)) {
        Ok(()) => Encoded::of(0, entenc_run::ec_enc_uint_run(buf, w, v, ft)),
        Err(refusal) => Encoded::refused(refusal, w),
    }
}

// The bits of v, raw, at the buffer's end.
pub fn ec_enc_bits(buf: &mut [u8], w: Enc, v: u32, bits: u32) -> Encoded
    ensures { sent buf.new result ≡ enc_sym (out buf.old w) (record { model = raw bits; value = v }) }
{
    match gate(buf, w).and(bits_rule(v, bits)) {
        Ok(()) => Encoded::of(0, entenc_run::ec_enc_bits_run(buf, w, v, bits)),
        Err(refusal) => Encoded::refused(refusal, w),
    }
}

// Finishing.
pub fn ec_enc_done(buf: &mut [u8], w: Enc) -> Encoded
    ensures { sent buf.new result ≡ enc_done (out buf.old w) }
{
    match gate(buf, w) {
        Ok(()) => Encoded::of(0, entenc_finish::ec_enc_done_run(buf, w)),
        Err(refusal) => Encoded::refused(refusal, w),
    }
}
