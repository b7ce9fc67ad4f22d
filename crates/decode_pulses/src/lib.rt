// The call that reads a frame's pulses (document 01): packet, state, numbers and the slice's length are tested once,
// in the order of refusals; a refusal touches no pulse. Name as in the crate's decode_pulses.rs.
#![tactic(auto)]

ghost use Rattle.std.specs.Prelude.{◌≡◌};
ghost use Rattle.silk.specs.FrameCalls.{pulsed, decode_pulses};

use entcode::{Dec, Decoded};
use symbol_reader::Reader;

pub fn silk_decode_pulses(
    packet: &[u8],
    d: Dec,
    pulses: &mut [i16],
    khz: u32,
    subframes: u32,
    signal: u32,
    offset: u32,
) -> Decoded
    ensures { pulsed pulses.new result ≡ decode_pulses packet.now d pulses.old khz subframes signal offset }
{
    let rule = pulse_numbers::pulse_rule(pulses.len(), khz, subframes, signal, offset);
    match entdec_gate::gate(packet, d).and(rule) {
        Ok(()) => {
            let rows = tables::rows::pulse_rows();
            let blocks = pulse_numbers::blocks_of_run(khz, subframes);
            let mut r = Reader { packet, state: d };
            decode_pulses_run::silk_decode_pulses_run(
                &mut r, &rows, pulses, blocks, signal, offset,
            );
            Decoded::of(0, r.state)
        }
        Err(refusal) => Decoded::refused(refusal, d),
    }
}
