// Lists a frame: standard input has two sections, count 7 (one byte) and kHz, subframes, active, mode, previous type,
// previous lag (two bytes, high first), then the packet's count (two bytes, high first) and its bytes. Prints the
// frame's fields and pulses, or the refusal.
#![tactic(auto)]

use std::io;

fn main(rt: HostRuntime) -> io::Result<()> {
    // both sections with a packet of 65,535 bytes, and one byte more of an input that goes on
    let mut input = [0u8; 65546];
    let n = read_full::read_full(&mut rt.stdin(), &mut input)?;
    let mut out = [0u8; 4096];
    let k = lister_text::lister_text(&input[..n], &mut out);
    rt.write_all(&out[..k])
}
