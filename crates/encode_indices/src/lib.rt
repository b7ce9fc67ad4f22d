// The call that writes a frame's side indices (document 01, "Side indices"; RFC 6716, section 4.2.7): it tests
// buffer, state, numbers and fields once, and writes each field by the row that its reader reads.
#![tactic(auto)]

ghost use Rattle.std.specs.Prelude.{◌≡◌, ◌^◌, ◌<◌, nat_abs};
ghost use Rattle.entcode.specs.Flat.{out};
ghost use Rattle.tree.specs.Inner.Growth.{of_symbols};
ghost use Rattle.tree.specs.Inner.Told.{Told};
ghost use Rattle.refusals.specs.Inner.{refusal_of};
ghost use Rattle.silk.specs.Inner.Indices.{Writing, Rate, Subframes, Upto, WritesPitch, Writes};
ghost use Rattle.silk.specs.IndexSyntax.{voicing, indices};
ghost use Rattle.silk.specs.FrameCalls.{next_lag};
ghost use Rattle.silk.specs.IndexWriting.{tell_rule, encode_indices};

use entcode::Enc;
use entenc_gate::gate;
use index_fields::fields_ok_run;
use index_gains_write::gains_tell_run;
use index_numbers::{next_lag_run, next_type_run, numbers_rule};
use index_pitch_write::pitch_tell_run;
use index_single_write::{interpolation_tell_run, kind_tell_run, seed_tell_run};
use index_spectrum_write::spectrum_tell_run;
use refusals::Refusal;
use silk::{Indices, IndicesWritten, Setting};
use tables::rows::index_rows;

// ---- refusals

// The first refusal.
fn tell_rule(buf: &[u8], w: Enc, x: Indices, s: Setting) -> Result<(), Refusal>
    ensures { refusal_of result ≡ tell_rule (out buf.now w) s x }
{
    gate(buf, w).and(numbers_rule(s))?;
    if fields_ok_run(x, s) {
        Ok(())
    } else {
        Err(Refusal::Value)
    }
}

// ---- writing

// The pitch of a voiced frame.
fn voicing_tell(buf: &mut [u8], w: Enc, rows: &[u8], x: Indices, signal: u32, s: Setting) -> Enc
    requires writing { Writing (out buf.old w) rows.now (2 ^ 27) }
    requires rate { Rate s.khz × Subframes s.subframes × (signal ≡ 2 → WritesPitch s x) }
    ensures { Told (out buf.old w) x (voicing signal s x) (of_symbols 10) (out buf.new result) }
{
    if signal == 2 {
        pitch_tell_run(buf, w, rows, x, s)
    } else {
        w
    }
}

// All of them, in order.
fn all_tell(buf: &mut [u8], w: Enc, rows: &[u8], x: Indices, s: Setting) -> Enc
    requires writing { Writing (out buf.old w) rows.now (2 ^ 26) }
    requires rate { Rate s.khz × Subframes s.subframes × (s.active < 2) × Writes s x }
    ensures { Told (out buf.old w) x (indices s x) (of_symbols 51) (out buf.new result) }
{
    let signal = next_type_run(x);
    let k = kind_tell_run(buf, w, rows, x, s.active);
    let g = gains_tell_run(buf, k, rows, x, s.mode, s.subframes, signal);
    let q = spectrum_tell_run(buf, g, rows, x, s.khz, signal);
    let i = interpolation_tell_run(buf, q, rows, x, s.subframes);
    let v = voicing_tell(buf, i, rows, x, signal, s);
    seed_tell_run(buf, v, rows, x)
}

// ---- the call

// The state behind a record that was written, and what the next frame is told.
fn accepted(state: Enc, x: Indices, before: i16) -> IndicesWritten
    requires { Upto 2 x.signal }
    ensures { result ≡ record { refusal = 0; state = state; prevtype = nat_abs x.signal; prevlag = next_lag before x } }
{
    IndicesWritten {
        refusal: 0,
        state,
        prevtype: next_type_run(x),
        prevlag: next_lag_run(x, before),
    }
}

pub fn silk_encode_indices(buf: &mut [u8], w: Enc, record: Indices, s: Setting) -> IndicesWritten
    ensures { record { buf = buf.exit.now; answer = result } ≡ encode_indices (out buf.entry.now w) «record» s }
{
    match tell_rule(buf, w, record, s) {
        Ok(()) => {
            let rows = index_rows();
            let q = all_tell(buf, w, &rows, record, s);
            accepted(q, record, s.prevlag)
        }
        Err(refusal) => IndicesWritten {
            refusal: u32::from(refusal),
            state: w,
            prevtype: s.prevtype,
            prevlag: s.prevlag,
        },
    }
}
