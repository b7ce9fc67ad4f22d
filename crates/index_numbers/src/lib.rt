// The numbers of a call on a frame's side indices, for reader and writer alike (document 01): refusal 4, and what the
// next frame is told.
#![tactic(auto)]

ghost use Rattle.std.specs.Prelude.{◌≡◌, cond, nat_abs};
ghost use Rattle.refusals.specs.Inner.{refusal_of};
ghost use Rattle.silk.specs.Inner.Indices.{Upto};
ghost use Rattle.silk.specs.FrameCalls.{setting_ok, next_lag};

use refusals::Refusal;
use silk::{Indices, Setting};

// ---- what a call takes

// kHz 8, 12 or 16; 2 or 4 subframes; active 0 or 1; mode and previous type 0 to 2.
#[tactic(auto, unfolding(silk::specs::FrameCalls::setting_ok))]
fn numbers_ok(s: Setting) -> bool
    ensures { result ≡ setting_ok s }
{
    ((s.khz == 8) | ((s.khz == 12) | (s.khz == 16)))
        & (((s.subframes == 2) | (s.subframes == 4))
            & ((s.active <= 1) & ((s.mode <= 2) & (s.prevtype <= 2))))
}

// Refusal 4.
pub fn numbers_rule(s: Setting) -> Result<(), Refusal>
    ensures { refusal_of result ≡ cond (setting_ok s) 0 4 }
{
    if numbers_ok(s) {
        Ok(())
    } else {
        Err(Refusal::Number)
    }
}

// ---- what the next frame is told

// The previous type is this frame's.
pub fn next_type_run(x: Indices) -> u32
    requires { Upto 2 x.signal }
    ensures { result ≡ nat_abs x.signal }
{
    x.signal as u32
}

// The previous lag is that of a voiced frame alone.
#[tactic(auto, unfolding(silk::specs::FrameCalls::next_lag))]
pub fn next_lag_run(x: Indices, before: i16) -> i16
    requires { Upto 2 x.signal }
    ensures { result ≡ next_lag before x }
{
    if x.signal == 2 { x.lag } else { before }
}
