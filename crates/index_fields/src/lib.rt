// Whether the fields of a record lie in their ranges, so that a frame may be written (document 01, "Side indices",
// refusal 8). The pitch of an unvoiced frame is not looked at.
#![tactic(auto)]

ghost use Rattle.std.specs.Prelude.{◌≡◌, ◌<◌, pos};
ghost use Rattle.deciding.specs.Inner.{Decides};
ghost use Rattle.silk.specs.Inner.Indices.{Rate, Subframes, WritesPitch, Writes};

use index_fields_parts::{gains_ok_run, interpolation_ok_run, kind_ok_run, spectrum_ok};
use index_fields_pitch::pitch_ok_run;
use silk::{Indices, Setting};

// The pitch of a voiced frame.
fn voicing_ok(x: Indices, s: Setting) -> bool
    requires { Rate s.khz × Subframes s.subframes }
    ensures { Decides result (x.signal ≡ pos 2 → WritesPitch s x) }
{
    if x.signal == 2 {
        pitch_ok_run(x, s)
    } else {
        true
    }
}

pub fn fields_ok_run(x: Indices, s: Setting) -> bool
    requires { Rate s.khz × Subframes s.subframes × (s.active < 2) }
    ensures { Decides result (Writes s x) }
{
    let seed = (0 <= x.seed) & (x.seed <= 3);
    kind_ok_run(x, s.active)
        & (gains_ok_run(x, s.mode, s.subframes)
            & (spectrum_ok(x, s.khz)
                & (interpolation_ok_run(x.interp, s.subframes) & (voicing_ok(x, s) & seed))))
}
