// Two frames of one symbol each, written and put into one packet; the packet read, and the second frame's symbol read
// from the part of the packet that the frame is.
#![tactic(auto)]

use entcode::{Dec, Enc};
use framing::Packet;
use std::io;

fn frame_of(symbol: u32, kind: &[u8]) -> [u8; 2] {
    let mut frame = [0; 2];
    let w: Enc = entenc::ec_enc_init(&frame).state;
    let w = entenc::ec_enc_icdf(&mut frame, w, symbol, kind, 8).state;
    entenc::ec_enc_done(&mut frame, w);
    frame
}

fn show(rt: &impl Print, name: &str, number: u32) -> io::Result<()> {
    println!(rt; "{name} {number}")
}

fn read(rt: &impl Print, packet: &[u8], kind: &[u8]) -> io::Result<()> {
    let a: Packet = packet_read::packet_read(packet);
    let r: Dec = packet_open::open_frame(packet, 1).state;
    let frame = packet_frame::packet_frame(packet, a, 1);
    show(rt, "frames", a.count)?;
    show(rt, "symbol", entdec::ec_dec_icdf(frame, r, kind, 8).value)
}

fn main(rt: HostRuntime) -> io::Result<()> {
    let kind = [232, 158, 10, 0];
    let first = frame_of(1, &kind);
    let second = frame_of(2, &kind);
    let frames = [first[0], first[1], second[0], second[1]];
    let mut packet = [0; 5];
    let written = packet_write::packet_write(&mut packet, 9, &frames, &[2, 2], 0);
    show(&rt, "length", written.length)?;
    read(&rt, &packet, &kind)
}
