// The call that reads a frame's side indices (document 01; RFC 6716, section 4.2.7), as the crate's
// decode_indices.rs: it tests packet, state and numbers once, and lends each part the reader and the record that it fills.
#![tactic(auto)]

ghost use Rattle.std.specs.Prelude.{◌≡◌, ◌^◌, ◌<◌, ◌≤◌};
ghost use Rattle.symbol_reader.specs.Inner.{Along};
ghost use Rattle.tree.specs.Asks.{got};
ghost use Rattle.tree.specs.Inner.Growth.{of_symbols};
ghost use Rattle.silk.specs.Inner.Indices.{IndexRows, Rate, Subframes, Upto};
ghost use Rattle.silk.specs.IndexSyntax.{voicing, indices};
ghost use Rattle.silk.specs.FrameCalls.{indices_got, decode_indices};

use entcode::Dec;
use entdec_gate::gate;
use index_gains_read::gains_run;
use index_numbers::{next_lag_run, next_type_run, numbers_rule};
use index_pitch_read::pitch_run;
use index_single_read::{interpolation_run, kind_run, seed_run};
use index_spectrum_read::spectrum_run;
use silk::{Indices, IndicesRead, Setting};
use symbol_reader::Reader;
use tables::rows::index_rows;

// ---- reading

// The pitch of a voiced frame.
fn voicing_index(r: &mut Reader, rows: &[u8], x: &mut Indices, signal: u32, s: Setting)
    requires few { r.old.state.total ≤ 2 ^ 27 }
    requires rows { IndexRows rows.now }
    requires rate { Rate s.khz × Subframes s.subframes }
    ensures { Along r.old (voicing signal s x.old) (of_symbols 10) x.new r.new }
{
    if signal == 2 {
        pitch_run(r, rows, x, s);
    }
}

// All of them, in order.
fn all_indices(r: &mut Reader, rows: &[u8], x: &mut Indices, s: Setting)
    requires few { r.old.state.total ≤ 2 ^ 26 }
    requires rows { IndexRows rows.now }
    requires rate { Rate s.khz × Subframes s.subframes × (s.active < 2) }
    ensures { Along r.old (indices s x.old) (of_symbols 51) x.new r.new }
{
    let kind = kind_run(r, rows, s.active);
    let signal = kind / 2;
    x.signal = signal as i8;
    x.offset = (kind % 2) as i8;
    gains_run(r, rows, x, s.mode, s.subframes, signal);
    spectrum_run(r, rows, x, s.khz, signal);
    interpolation_run(r, rows, x, s.subframes);
    voicing_index(r, rows, x, signal, s);
    seed_run(r, rows, x);
}

// ---- the call

// A record that was read, and what the next frame is told.
fn accepted(state: Dec, x: Indices, before: i16) -> IndicesRead
    requires { Upto 2 x.signal }
    ensures { result ≡ indices_got before (got x state) }
{
    IndicesRead {
        refusal: 0,
        state,
        indices: x,
        prevtype: next_type_run(x),
        prevlag: next_lag_run(x, before),
    }
}

pub fn silk_decode_indices(packet: &[u8], d: Dec, record: Indices, s: Setting) -> IndicesRead
    ensures { result ≡ decode_indices packet.now d «record» s }
{
    match gate(packet, d).and(numbers_rule(s)) {
        Ok(()) => {
            let rows = index_rows();
            let mut x = record;
            let mut r = Reader { packet, state: d };
            all_indices(&mut r, &rows, &mut x, s);
            accepted(r.state, x, s.prevlag)
        }
        Err(refusal) => IndicesRead {
            refusal: u32::from(refusal),
            state: d,
            indices: record,
            prevtype: s.prevtype,
            prevlag: s.prevlag,
        },
    }
}
