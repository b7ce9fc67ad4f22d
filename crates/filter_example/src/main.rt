// A filter builder's call. Two lines near each other make a resonance, the sharper the nearer they are; lines that touch
// make one that never dies away, and the filter is unstable. So the builder asks for lines that do not touch (`Apart`).
// Its callers need no test for that: decoding leaves such lines, and so does stabilising by gaps of 1, whatever they are
// given (`decode_apart`, `stabilise_always`: crates/spectrum/specs/Statement/Always.antt).
#![tactic(auto)]

ghost use Rattle.std.specs.Prelude.{pos, ◌+ℤ◌, ◌≤ℤ◌};
ghost use Rattle.spectrum.specs.Statement.Always.{Apart};

use spectrum::{Moves, Spectrum};
use std::io;

// How sharp the resonance of two lines is: the half band over their distance.
fn sharpness(low: i16, high: i16) -> u32
    requires { (low +ℤ pos 1) ≤ℤ high }
{
    32768 / (((high as i32) - (low as i32)) as u32)
}

// The builder's call: the sharpest resonance of all.
fn sharpest(lines: &[i16]) -> u32
    requires { Apart 1 1 1 lines.now }
{
    let mut most = 0;
    for i in 1..lines.len() {
        most = most.max(sharpness(lines[i - 1], lines[i]));
    }
    most
}

// Of a frame at 16 kHz, whatever its indices are; None where they are refused.
fn decoded(indices: Spectrum) -> Option<u32> {
    let mut lines = [0i16; 16];
    let decoding: Moves = nlsf_decode::silk_NLSF_decode(&mut lines, indices, 16);
    if decoding.refusal == 0 {
        Some(sharpest(&lines))
    } else {
        None
    }
}

// Of 16 lines from elsewhere, whatever they are, moved apart where they touch; None where there are more or fewer.
fn moved_apart(lines: &mut [i16]) -> Option<u32> {
    let gaps = [1i16; 17];
    let moving: Moves = nlsf_stabilize::silk_NLSF_stabilize(lines, &gaps);
    if moving.refusal == 0 {
        Some(sharpest(lines))
    } else {
        None
    }
}

fn show(rt: &impl Print, sharp: Option<u32>) -> io::Result<()> {
    match sharp {
        Some(number) => println!(rt; "{number}"),
        None => println!(rt; "refused"),
    }
}

fn main(rt: HostRuntime) -> io::Result<()> {
    show(&rt, decoded(Spectrum { index: [10; 17] }))?;
    show(&rt, moved_apart(&mut [9000i16; 16]))
}
