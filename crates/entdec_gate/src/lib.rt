// What every call on a reader checks first: the packet's length, the state's soundness, its total (document 01, refusals 1 to 3).
#![tactic(auto)]

ghost use Rattle.std.specs.Prelude.{◌≡◌};
ghost use Rattle.entcode.specs.Sound.{sound_r, gate_r};
ghost use Rattle.refusals.specs.Inner.{refusal_of};

use entcode::{Dec, window_ok};
use entdec_sound::{places_ok, range_ok, small_ok, total_ok};
use refusals::Refusal;

// Whether a state is sound for a packet.
#[tactic(auto, unfolding(entcode::specs::Sound::sound_r))]
fn sound(packet: &[u8], d: Dec) -> bool
    ensures { result ≡ sound_r packet.now d }
{
    range_ok(d)
        & (places_ok(packet, d) & (small_ok(d) & (window_ok(d.window, d.wbits) & total_ok(d))))
}

// Refusals 1 to 3.
#[tactic(auto, unfolding(entcode::specs::Sound::gate_r))]
pub fn gate(packet: &[u8], d: Dec) -> Result<(), Refusal>
    ensures { refusal_of result ≡ gate_r packet.now d }
{
    entcode::gate(packet.len(), sound(packet, d), d.total)
}
