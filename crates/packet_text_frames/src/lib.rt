// The lines that list the frames of a packet, put into a lent buffer at a place. Each function answers the place behind
// what it put.
#![tactic(auto)]

ghost use Rattle.std.specs.Prelude.{◌+◌, ◌≤◌, length};
ghost use Rattle.numerals.specs.Inner.{Put};
ghost use Rattle.packet_text_frames.specs.FrameLines.{frame_line, frame_lines};
ghost use Rattle.packet_text_frames.specs.Inner.{Small};

use framing::Packet;
use listing::put_line_run;

fn put_frame(out: &mut [u8], at: usize, start: u16, size: u16) -> usize
    requires { (at + 20 ≤ length out.old) × (start ≤ 16384) × (size ≤ 16384) }
    ensures { Put 20 out.old at (frame_line start size) out.new result }
{
    put_line_run(out, at, b"frame", &[start as i16, size as i16])
}

pub fn put_frames_run(out: &mut [u8], at: usize, a: Packet) -> usize
    requires { (at + 240 ≤ length out.old) × Small a }
    ensures { Put 240 out.old at (frame_lines a a.count) out.new result }
{
    let mut place = at;
    for k in 0..a.count as usize {
        place = put_frame(out, place, a.start[k], a.size[k]);
    }
    place
}
