// What the frame lister prints for an input, put into a lent buffer.
#![tactic(auto)]

ghost use Rattle.std.specs.Prelude.{◌+◌, ◌*◌, ◌≤◌, ◌≡◌, length};
ghost use Rattle.numerals.specs.Inner.{Put};
ghost use Rattle.listing.specs.Printed.{printed};
ghost use Rattle.sections.specs.Values.{byte_at};
ghost use Rattle.silk.specs.Inner.Indices.{Rate, Subframes};
ghost use Rattle.silk.specs.FrameCalls.{blocks_of};
ghost use Rattle.lister_text.specs.ListerText.{excitation_text, accepted_text, frame_text, lister_text, blank as blankOf};

use entcode::Dec;
use frame_text_indices::put_indices_run;
use frame_text_pulses::put_pulses_run;
use lister_text_input::{put_cut_run, whole};
use listing::put_refused_run;
use pulse_numbers::{CallNumbers, blocks_of_run};
use sections::{byte_at, value_at_run};
use silk::{Indices, IndicesRead, Setting};

// ---- the frame

fn blank() -> Indices
    ensures { result ≡ blankOf }
{
    Indices {
        gains: [0; 4],
        ltp: [0; 4],
        nlsf: [0; 17],
        lag: 0,
        contour: 0,
        signal: 0,
        offset: 0,
        interp: 0,
        period: 0,
        scale: 0,
        seed: 0,
    }
}

// The pulses behind the side indices.
fn put_pulses(
    out: &mut [u8],
    at: usize,
    packet: &[u8],
    d: Dec,
    pulses: &mut [i16],
    f: CallNumbers,
) -> usize
    requires at_in_bounds { (at + 2258 ≤ length out.old) × (f.khz ≤ 16) × (f.subframes ≤ 4) }
    requires pulses_len { length pulses.old ≡ 16 * blocks_of f.khz f.subframes }
    ensures { Put 2258 out.old at
        (excitation_text packet.now d pulses.old f.khz f.subframes f.signal f.offset)
        out.new result }
{
    decode_pulses::silk_decode_pulses(packet, d, pulses, f.khz, f.subframes, f.signal, f.offset);
    let blocks = blocks_of_run(f.khz, f.subframes);
    put_pulses_run(out, at, blocks, pulses)
}

fn put_frame(out: &mut [u8], packet: &[u8], a: IndicesRead, khz: u32, subframes: u32) -> usize
    requires in_bounds { 2564 ≤ length out.old }
    requires rate { Rate khz × Subframes subframes }
    ensures { Put 2564 out.old 0 (accepted_text packet.now khz subframes a) out.new result }
{
    let x = a.indices;
    let place = put_indices_run(out, 0, x, khz, subframes);
    let numbers = CallNumbers {
        khz,
        subframes,
        signal: u32::from(x.signal.unsigned_abs()),
        offset: u32::from(x.offset.unsigned_abs()),
    };
    let n = 16 * blocks_of_run(khz, subframes);
    let mut pulses = [0; 320];
    put_pulses(out, place, packet, a.state, &mut pulses[..n], numbers)
}

// The frame that starts the packet, or the refusal.
fn put_read(out: &mut [u8], packet: &[u8], s: Setting) -> usize
    requires { 2564 ≤ length out.old }
    ensures { Put 2564 out.old 0 (frame_text packet.now s) out.new result }
{
    let d = entdec::ec_dec_init(packet).state;
    let a = decode_indices::silk_decode_indices(packet, d, blank(), s);
    if a.refusal == 0 {
        put_frame(out, packet, a, s.khz, s.subframes)
    } else {
        put_refused_run(out, 0, a.refusal)
    }
}

// ---- the input

fn number_at(input: &[u8], i: usize) -> u32
    ensures { result ≡ byte_at input.now i }
{
    byte_at(input, i) as u32
}

// The text of any input; 4,096 bytes have room for each.
pub fn lister_text(input: &[u8], out: &mut [u8; 4096]) -> usize
    ensures { record { buffer = out.new; count = result } ≡ printed (lister_text input.now) out.old }
{
    if whole(input) {
        let setting = Setting {
            khz: number_at(input, 1),
            subframes: number_at(input, 2),
            active: number_at(input, 3),
            mode: number_at(input, 4),
            prevtype: number_at(input, 5),
            prevlag: value_at_run(input, 6),
        };
        put_read(out, &input[10..], setting)
    } else {
        put_cut_run(out)
    }
}
