// The line that lists a frame's pitch (document 01), put into a lent buffer at a place.
#![tactic(auto)]

ghost use Rattle.std.specs.Prelude.{◌+◌, ◌≤◌, length};
ghost use Rattle.numerals.specs.Inner.{Put};
ghost use Rattle.silk.specs.Inner.Indices.{Subframes};
ghost use Rattle.frame_text.specs.FrameText.{pitch_text};

use frame_text::widened;
use listing::put_counted_run;
use silk::Indices;

// Of a voiced frame a lag and four numbers or six behind it, of any other none.
pub fn put_pitch_run(out: &mut [u8], at: usize, x: Indices, subframes: u32) -> usize
    requires at_in_bounds { at + 69 ≤ length out.old }
    requires subframes_value { Subframes subframes }
    ensures { Put 69 out.old at (pitch_text subframes x) out.new result }
{
    let contour = i16::from(x.contour);
    let period = i16::from(x.period);
    let scale = i16::from(x.scale);
    let ltp = widened(x.ltp);
    if x.signal.unsigned_abs() != 2 {
        put_counted_run(out, at, b"pitch", &[])
    } else if subframes == 2 {
        put_counted_run(
            out,
            at,
            b"pitch",
            &[x.lag, contour, period, ltp[0], ltp[1], scale],
        )
    } else {
        put_counted_run(
            out,
            at,
            b"pitch",
            &[
                x.lag, contour, period, ltp[0], ltp[1], ltp[2], ltp[3], scale,
            ],
        )
    }
}
