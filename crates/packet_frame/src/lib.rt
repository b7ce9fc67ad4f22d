// A frame, as the part of the packet that it is.
#![tactic(auto)]

ghost use Rattle.std.specs.Prelude.{◌≡◌};
ghost use Rattle.packet_frame.specs.Frames.{part_of, frame_at};

use framing::Packet;

#[tactic(auto, unfolding(crate::specs::Frames::part_of))]
fn part(s: &[u8], start: usize, size: usize) -> &[u8]
    ensures { result.now ≡ part_of s.now start size }
{
    if start <= s.len() && size <= s.len() - start {
        &s[start..start + size]
    } else {
        &s[..0]
    }
}

// Frame k of a packet that was read; nothing past the last.
#[tactic(auto, using(crate::proofs::FrameLaws::past_frames), unfolding(crate::specs::Frames::frame_at))]
pub fn packet_frame(packet: &[u8], a: Packet, k: usize) -> &[u8]
    ensures { result.now ≡ frame_at packet.now a k }
{
    if k < 12 {
        part(packet, usize::from(a.start[k]), usize::from(a.size[k]))
    } else {
        &packet[..0]
    }
}
