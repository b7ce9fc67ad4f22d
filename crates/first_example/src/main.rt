// A packet of 4 bytes written and read back: a type by its table, a number below 1,000, three raw bits; and a symbol that the
// table does not have.
#![tactic(auto)]

use entcode::{Dec, Enc};
use std::io;

fn show(rt: &impl Print, number: u32) -> io::Result<()> {
    println!(rt; "{number}")
}

fn read(rt: &impl Print, packet: &[u8], kind: &[u8]) -> io::Result<()> {
    let r: Dec = entdec::ec_dec_init(packet).state;
    let a = entdec::ec_dec_icdf(packet, r, kind, 8);
    let b = entdec::ec_dec_uint(packet, a.state, 1000);
    let c = entdec::ec_dec_bits(packet, b.state, 3);
    show(rt, a.value)?;
    show(rt, b.value)?;
    show(rt, c.value)?;
    show(rt, entdec::ec_tell(packet, c.state).value)
}

fn main(rt: HostRuntime) -> io::Result<()> {
    let kind = [232, 158, 10, 0];
    let mut packet = [0; 4];
    let w: Enc = entenc::ec_enc_init(&packet).state;
    let w = entenc::ec_enc_icdf(&mut packet, w, 2, &kind, 8).state;
    let w = entenc::ec_enc_uint(&mut packet, w, 777, 1000).state;
    let w = entenc::ec_enc_bits(&mut packet, w, 5, 3).state;
    show(
        &rt,
        entenc::ec_enc_icdf(&mut packet, w, 4, &kind, 8).refusal,
    )?;
    show(&rt, entenc::ec_tell(&packet, w).value)?;
    entenc::ec_enc_done(&mut packet, w);
    read(&rt, &packet, &kind)
}
