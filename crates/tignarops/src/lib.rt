// The C interface (include/tignarops.h): each call hands its slices and states to the room that does the work, and
// has its contract. Other rooms use this one, and so C links the archive of tignarops_c, which calls it.
#![tactic(auto)]

ghost use Rattle.std.specs.Prelude.{◌≡◌};
ghost use Rattle.entcode.specs.Models.{bit, raw, num, tab};
ghost use Rattle.entcode.specs.Reading.{dec_sym, dec_tell, dec_open};
ghost use Rattle.entcode.specs.Flat.{out};
ghost use Rattle.entcode.specs.Writing.{sent, enc_sym, enc_tell, enc_done, enc_open};
ghost use Rattle.silk.specs.FrameCalls.{decode_indices, pulsed, decode_pulses};
ghost use Rattle.frame_type.specs.Kind.{frame_type};
ghost use Rattle.silk.specs.IndexWriting.{encode_indices};
ghost use Rattle.silk.specs.PulseWriting.{encode_pulses};
ghost use Rattle.spectrum.specs.Calls.{stabilise_call, decode_call};
ghost use Rattle.framing.specs.Reading.{packet_read};
ghost use Rattle.framing.specs.Writing.{packet_write};

use entcode::{Dec, Decoded, Enc, Encoded};
use frame_type::FrameType;
use framing::{Packet, PacketWritten};
use pulse_numbers::CallNumbers;
use silk::{Indices, IndicesRead, IndicesWritten, Setting};
use spectrum::{Moves, Spectrum};

// ---- the reader

#[unsafe(no_mangle)]
pub extern "C" fn tg_dec_open(packet: &[u8]) -> Decoded
    ensures { result ≡ dec_open packet.now }
{
    entdec::ec_dec_init(packet)
}

#[unsafe(no_mangle)]
pub extern "C" fn tg_dec_account(packet: &[u8], r: Dec) -> Decoded
    ensures { result ≡ dec_tell packet.now r }
{
    entdec::ec_tell(packet, r)
}

#[unsafe(no_mangle)]
pub extern "C" fn tg_dec_bit(packet: &[u8], r: Dec, exponent: u32) -> Decoded
    ensures { result ≡ dec_sym packet.now r (bit exponent) }
{
    entdec::ec_dec_bit_logp(packet, r, exponent)
}

#[unsafe(no_mangle)]
pub extern "C" fn tg_dec_icdf(packet: &[u8], r: Dec, table: &[u8], scale: u32) -> Decoded
    ensures { result ≡ dec_sym packet.now r (tab scale table.now) }
{
    entdec::ec_dec_icdf(packet, r, table, scale)
}

#[unsafe(no_mangle)]
pub extern "C" fn tg_dec_uint(packet: &[u8], r: Dec, total: u32) -> Decoded
    ensures { result ≡ dec_sym packet.now r (num total) }
{
    entdec::ec_dec_uint(packet, r, total)
}

#[unsafe(no_mangle)]
pub extern "C" fn tg_dec_bits(packet: &[u8], r: Dec, bits: u32) -> Decoded
    ensures { result ≡ dec_sym packet.now r (raw bits) }
{
    entdec::ec_dec_bits(packet, r, bits)
}

// ---- the writer

#[unsafe(no_mangle)]
pub extern "C" fn tg_enc_open(buf: &[u8]) -> Encoded
    ensures { sent buf.now result ≡ enc_open buf.now }
{
    entenc::ec_enc_init(buf)
}

#[unsafe(no_mangle)]
pub extern "C" fn tg_enc_account(buf: &[u8], w: Enc) -> Encoded
    ensures { sent buf.now result ≡ enc_tell (out buf.now w) }
{
    entenc::ec_tell(buf, w)
}

#[unsafe(no_mangle)]
pub extern "C" fn tg_enc_bit(buf: &mut [u8], w: Enc, value: u32, exponent: u32) -> Encoded
    ensures { sent buf.new result ≡
        enc_sym (out buf.old w) (record { model = bit exponent; value = value }) }
{
    entenc::ec_enc_bit_logp(buf, w, value, exponent)
}

#[unsafe(no_mangle)]
pub extern "C" fn tg_enc_icdf(
    buf: &mut [u8],
    w: Enc,
    symbol: u32,
    table: &[u8],
    scale: u32,
) -> Encoded
    ensures { sent buf.new result ≡
        enc_sym (out buf.old w) (record { model = tab scale table.now; value = symbol }) }
{
    entenc::ec_enc_icdf(buf, w, symbol, table, scale)
}

#[unsafe(no_mangle)]
pub extern "C" fn tg_enc_uint(buf: &mut [u8], w: Enc, value: u32, total: u32) -> Encoded
    ensures { sent buf.new result ≡ enc_sym (out buf.old w) (record { model = num total; value = value }) }
{
    entenc::ec_enc_uint(buf, w, value, total)
}

#[unsafe(no_mangle)]
pub extern "C" fn tg_enc_bits(buf: &mut [u8], w: Enc, value: u32, bits: u32) -> Encoded
    ensures { sent buf.new result ≡ enc_sym (out buf.old w) (record { model = raw bits; value = value }) }
{
    entenc::ec_enc_bits(buf, w, value, bits)
}

#[unsafe(no_mangle)]
pub extern "C" fn tg_enc_done(buf: &mut [u8], w: Enc) -> Encoded
    ensures { sent buf.new result ≡ enc_done (out buf.old w) }
{
    entenc::ec_enc_done(buf, w)
}

// ---- the types of a packet's first frame

#[unsafe(no_mangle)]
pub extern "C" fn tg_frame_type(packet: &[u8], active: u32) -> FrameType
    ensures { result ≡ frame_type packet.now active }
{
    frame_type::frame_type(packet, active)
}

// ---- side indices

#[unsafe(no_mangle)]
pub extern "C" fn tg_decode_indices(
    packet: &[u8],
    r: Dec,
    record: Indices,
    khz: u32,
    subframes: u32,
    active: u32,
    mode: u32,
    prevtype: u32,
    prevlag: i16,
) -> IndicesRead
    ensures { result ≡ decode_indices packet.now r «record»
        (record { khz = khz; subframes = subframes; active = active; mode = mode; prevtype = prevtype; prevlag = prevlag }) }
{
    let setting = Setting {
        khz,
        subframes,
        active,
        mode,
        prevtype,
        prevlag,
    };
    decode_indices::silk_decode_indices(packet, r, record, setting)
}

#[unsafe(no_mangle)]
pub extern "C" fn tg_encode_indices(
    buf: &mut [u8],
    w: Enc,
    record: Indices,
    khz: u32,
    subframes: u32,
    active: u32,
    mode: u32,
    prevtype: u32,
    prevlag: i16,
) -> IndicesWritten
    ensures { record { buf = buf.new; answer = result } ≡ encode_indices (out buf.old w) «record»
        (record { khz = khz; subframes = subframes; active = active; mode = mode; prevtype = prevtype; prevlag = prevlag }) }
{
    let setting = Setting {
        khz,
        subframes,
        active,
        mode,
        prevtype,
        prevlag,
    };
    encode_indices::silk_encode_indices(buf, w, record, setting)
}

// ---- pulses

#[unsafe(no_mangle)]
pub extern "C" fn tg_decode_pulses(
    packet: &[u8],
    r: Dec,
    pulses: &mut [i16],
    khz: u32,
    subframes: u32,
    signal: u32,
    offset: u32,
) -> Decoded
    ensures { pulsed pulses.new result ≡
        decode_pulses packet.now r pulses.old khz subframes signal offset }
{
    decode_pulses::silk_decode_pulses(packet, r, pulses, khz, subframes, signal, offset)
}

#[unsafe(no_mangle)]
pub extern "C" fn tg_encode_pulses(
    buf: &mut [u8],
    w: Enc,
    pulses: &[i16],
    khz: u32,
    subframes: u32,
    signal: u32,
    offset: u32,
    rate: u32,
) -> Encoded
    ensures { sent buf.new result ≡
        encode_pulses (out buf.old w) pulses.now khz subframes signal offset rate }
{
    let f = CallNumbers {
        khz,
        subframes,
        signal,
        offset,
    };
    encode_pulses::silk_encode_pulses(buf, w, pulses, f, rate)
}

// ---- line spectra

#[unsafe(no_mangle)]
pub extern "C" fn tg_nlsf_decode(vector: &mut [i16], indices: Spectrum, khz: u32) -> Moves
    ensures { record { vector = vector.new; answer = result } ≡ decode_call vector.old indices khz }
{
    nlsf_decode::silk_NLSF_decode(vector, indices, khz)
}

#[unsafe(no_mangle)]
pub extern "C" fn tg_nlsf_stabilise(vector: &mut [i16], gaps: &[i16]) -> Moves
    ensures { record { vector = vector.new; answer = result } ≡
        stabilise_call vector.old gaps.now }
{
    nlsf_stabilize::silk_NLSF_stabilize(vector, gaps)
}

// ---- whole packets

#[unsafe(no_mangle)]
pub extern "C" fn tg_packet_read(packet: &[u8]) -> Packet
    ensures { result ≡ packet_read packet.now }
{
    packet_read::packet_read(packet)
}

#[unsafe(no_mangle)]
pub extern "C" fn tg_packet_write(
    buf: &mut [u8],
    config: u32,
    frames: &[u8],
    sizes: &[u16],
    length: u32,
) -> PacketWritten
    ensures { record { buf = buf.new; answer = result } ≡
        packet_write buf.old config frames.now sizes.now length }
{
    packet_write::packet_write(buf, config, frames, sizes, length)
}
