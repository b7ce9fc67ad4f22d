// Document 01's reader, opened on a frame of a packet: the part of it that the frame is.
#![tactic(auto)]

ghost use Rattle.std.specs.Prelude.{◌≡◌};
ghost use Rattle.entcode.specs.Reading.{dec_open};
ghost use Rattle.framing.specs.Reading.{packet_read};
ghost use Rattle.packet_frame.specs.Frames.{frame_at};

use entcode::Decoded;
use packet_frame::packet_frame;
use packet_read::packet_read;

// A reader at the start of frame k.
pub fn open_frame(packet: &[u8], k: usize) -> Decoded
    ensures { result ≡ dec_open (frame_at packet.now (packet_read packet.now) k) }
{
    let a = packet_read(packet);
    let frame = packet_frame(packet, a, k);
    entdec::ec_dec_init(frame)
}
