// The first two lines that list a frame (document 01): rate and subframes, then the two types, put into a lent buffer
// at a place.
#![tactic(auto)]

ghost use Rattle.std.specs.Prelude.{◌+◌, ◌≤◌, length};
ghost use Rattle.numerals.specs.Inner.{Put};
ghost use Rattle.frame_text.specs.FrameText.{kind_text};

use listing::put_line_run;
use silk::Indices;

// Rate and subframes, then the two types.
pub fn put_kind_run(out: &mut [u8], at: usize, x: Indices, khz: u32, subframes: u32) -> usize
    requires { (at + 39 ≤ length out.old) × (khz ≤ 16) × (subframes ≤ 4) }
    ensures { Put 39 out.old at (kind_text khz subframes x) out.new result }
{
    let place = put_line_run(out, at, b"frame", &[khz as i16, subframes as i16]);
    put_line_run(
        out,
        place,
        b"type",
        &[i16::from(x.signal), i16::from(x.offset)],
    )
}
