// The call that writes a frame's pulses (document 01): buffer, state, numbers and the slice's length are tested once,
// then whether each block has a shift, in the order of refusals; a refusal touches no byte. Name as in the crate's
// encode_pulses.rs.
#![tactic(auto)]

ghost use Rattle.std.specs.Prelude.{◌≡◌};
ghost use Rattle.entcode.specs.Flat.{out};
ghost use Rattle.entcode.specs.Writing.{sent};
ghost use Rattle.refusals.specs.Inner.{refusal_of};
ghost use Rattle.silk.specs.PulseWriting.{write_numbers, encode_pulses};

use entcode::{Enc, Encoded};
use pulse_numbers::{CallNumbers, FrameNumbers};
use refusals::Refusal;

// Refusal 4 or 6: the rate level is a number too.
fn write_rule(n: usize, f: CallNumbers, rate: u32) -> Result<(), Refusal>
    ensures { refusal_of result ≡ write_numbers n f.khz f.subframes f.signal f.offset rate }
{
    if rate <= 8 {
        pulse_numbers::pulse_rule(n, f.khz, f.subframes, f.signal, f.offset)
    } else {
        Err(Refusal::Number)
    }
}

pub fn silk_encode_pulses(
    buf: &mut [u8],
    w: Enc,
    pulses: &[i16],
    f: CallNumbers,
    rate: u32,
) -> Encoded
    ensures { sent buf.new result ≡
        encode_pulses (out buf.old w) pulses.now f.khz f.subframes f.signal f.offset rate }
{
    let rule = write_rule(pulses.len(), f, rate);
    match entenc_gate::gate(buf, w).and(rule) {
        Ok(()) => {
            let blocks = pulse_numbers::blocks_of_run(f.khz, f.subframes);
            match pulse_shifts::plan_run(pulses, blocks) {
                Some(x) => {
                    let rows = tables::rows::pulse_rows();
                    let frame = FrameNumbers {
                        blocks,
                        signal: f.signal,
                        offset: f.offset,
                    };
                    let state = encode_pulses_run::silk_encode_pulses_run(
                        buf, w, &rows, pulses, x, frame, rate,
                    );
                    Encoded::of(0, state)
                }
                None => Encoded::refused(Refusal::Value, w),
            }
        }
        Err(refusal) => Encoded::refused(refusal, w),
    }
}
