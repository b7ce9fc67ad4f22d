// Stabilises a vector: standard input has a vector and a gap section, each after a one-byte count, of values of two
// bytes, high first. Prints the number of moves and the vector, or the refusal.
#![tactic(auto)]

use std::io;

fn main(rt: HostRuntime) -> io::Result<()> {
    // two sections of 255 values, and one byte more of an input that goes on
    let mut input = [0u8; 1023];
    let n = read_full::read_full(&mut rt.stdin(), &mut input)?;
    let mut out = [0u8; 256];
    let k = stabiliser_text::stabiliser_text(&input[..n], &mut out);
    rt.write_all(&out[..k])
}
