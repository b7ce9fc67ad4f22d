// Whether the pitch of a voiced frame lies in its ranges, so that it may be written (document 01, "Side indices",
// refusal 8; RFC 6716, section 4.2.7.6). Bounds are tested by `&`, which has no jump: `contains` of a range has a way out
// in its middle.
#![tactic(auto)]

ghost use Rattle.std.specs.Prelude.{◌≡◌, ℕ, ◌-◌, ◌*◌, ◌^◌, ◌<◌, pos, nat_abs, get_or};
ghost use Rattle.deciding.specs.Inner.{Decides};
ghost use Rattle.silk.specs.Inner.Indices.{Rate, Subframes, contour_size, Upto, WritesPitch};

use index_layout::contour_size;
use ranges::all_in_range;
use silk::{Indices, Setting};

// A lag is written absolutely.
fn lag_ok(lag: i16, khz: u32) -> bool
    requires { Rate khz }
    ensures { Decides result (Upto (16 * khz - 1) lag) }
{
    let most = (16 * khz - 1) as i16;
    (0 <= lag) & (lag <= most)
}

fn contour_ok(contour: i8, khz: u32, subframes: u32) -> bool
    ensures { Decides result (Upto (contour_size khz subframes - 1) contour) }
{
    let most = (contour_size(khz, subframes) - 1) as i8;
    (0 <= contour) & (contour <= most)
}

// The last filter of a period from 0 to 2: each has twice as many as the one before.
fn filter_most(period: i8) -> i8
    ensures { Upto 2 period → result ≡ pos (8 * 2 ^ nat_abs period - 1) }
{
    match period {
        0 => 7,
        1 => 15,
        _ => 31,
    }
}

// The period, and a filter of it for each subframe.
fn filters_ok(ltp: [i8; 4], period: i8, subframes: u32) -> bool
    requires { Subframes subframes }
    ensures { Decides result (Upto 2 period × ((k : ℕ) → k < subframes → Upto (8 * 2 ^ nat_abs period - 1) (get_or ltp k (pos 0)))) }
{
    let most = filter_most(period);
    let n = subframes as usize;
    ((0 <= period) & (period <= 2)) & all_in_range(&ltp[0..n], 0, most)
}

// 0 but in mode 0.
fn scale_ok(scale: i8, mode: u32) -> bool
    ensures { Decides result (Upto 2 scale × ((mode ≡ 0 → ⊥) → scale ≡ pos 0)) }
{
    ((0 <= scale) & (scale <= 2)) & ((mode == 0) | (scale == 0))
}

pub fn pitch_ok_run(x: Indices, s: Setting) -> bool
    requires { Rate s.khz × Subframes s.subframes }
    ensures { Decides result (WritesPitch s x) }
{
    let filters = filters_ok(x.ltp, x.period, s.subframes);
    lag_ok(x.lag, s.khz)
        & (contour_ok(x.contour, s.khz, s.subframes) & (filters & scale_ok(x.scale, s.mode)))
}
