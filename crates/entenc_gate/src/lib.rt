// What every call on a writer checks first: the buffer's length, the state's soundness, its total (document 01, refusals 1 to 3).
#![tactic(auto)]

ghost use Rattle.std.specs.Prelude.{◌≡◌};
ghost use Rattle.entcode.specs.Sound.{sound_w, gate_w};
ghost use Rattle.refusals.specs.Inner.{refusal_of};

use entcode::{Enc, window_ok};
use entenc_sound::{counts_ok, places_ok, range_ok, signs_ok};
use refusals::Refusal;

// Whether a state is sound for a buffer.
#[tactic(auto, unfolding(entcode::specs::Sound::sound_w))]
fn sound(buf: &[u8], w: Enc) -> bool
    ensures { result ≡ sound_w buf.now w }
{
    range_ok(w)
        & (places_ok(buf, w) & (signs_ok(w) & (window_ok(w.window, w.wbits) & counts_ok(w))))
}

// Refusals 1 to 3.
#[tactic(auto, unfolding(entcode::specs::Sound::gate_w))]
pub fn gate(buf: &[u8], w: Enc) -> Result<(), Refusal>
    ensures { refusal_of result ≡ gate_w buf.now w }
{
    entcode::gate(buf.len(), sound(buf, w), w.total)
}
