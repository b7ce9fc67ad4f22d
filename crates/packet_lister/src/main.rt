// Lists a packet: standard input has the bytes of one whole packet. Prints its configuration, its arrangement, and
// each frame's start and size, or the refusal.
#![tactic(auto)]

use std::io;

fn main(rt: HostRuntime) -> io::Result<()> {
    // the longest packet, and one byte more of an input that goes on
    let mut input = [0u8; 16385];
    let n = read_full::read_full(&mut rt.stdin(), &mut input)?;
    let mut out = [0u8; 512];
    let k = packet_text::packet_text(&input[..n], &mut out);
    rt.write_all(&out[..k])
}
