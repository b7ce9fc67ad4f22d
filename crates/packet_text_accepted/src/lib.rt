// What the packet lister prints of a packet that is accepted, put into a lent buffer.
#![tactic(auto)]

ghost use Rattle.std.specs.Prelude.{◌≤◌, length};
ghost use Rattle.numerals.specs.Inner.{Put};
ghost use Rattle.packet_text_frames.specs.Inner.{Small};
ghost use Rattle.packet_text_accepted.specs.AcceptedText.{accepted_text};

use framing::Packet;
use listing::{put_line_run, put_word_run};
use packet_text_frames::put_frames_run;

pub fn put_accepted_run(out: &mut [u8], a: Packet) -> usize
    requires { (277 ≤ length out.old) × Small a }
    ensures { Put 277 out.old 0 (accepted_text a) out.new result }
{
    let place = put_line_run(out, 0, b"config", &[a.config as i16]);
    let place = put_line_run(out, place, b"arrangement", &[a.arrangement as i16]);
    let place = put_frames_run(out, place, a);
    put_word_run(out, place, b"end\n")
}
