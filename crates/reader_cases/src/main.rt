// Replays recorded calls of the reader: each record of standard input has a call and the crate's answer
// (docs/RECORDED.md has the layout). Prints how many calls of each kind agreed, and then that all did, or the number
// of the first that did not.
#![tactic(auto)]

use entcode::{Dec, Decoded};
use record_bytes::numbers::Unread;
use record_head::Record;
use record_states::{reader_answer, reader_state};
use records::calls::CoderCall;
use records::{Left, READER_NUMBERS};
use std::io;

// A reader has no call that finishes.
fn ask(call: CoderCall, packet: &[u8], d: Dec, number: u32, table: &[u8]) -> Option<Decoded> {
    match call {
        CoderCall::Open => Some(tignarops::tg_dec_open(packet)),
        CoderCall::Account => Some(tignarops::tg_dec_account(packet, d)),
        CoderCall::Bit => Some(tignarops::tg_dec_bit(packet, d, number)),
        CoderCall::Table => Some(tignarops::tg_dec_icdf(packet, d, table, number)),
        CoderCall::Number => Some(tignarops::tg_dec_uint(packet, d, number)),
        CoderCall::Bits => Some(tignarops::tg_dec_bits(packet, d, number)),
        CoderCall::Finish => None,
    }
}

// What the record's call leaves, where it answers as it should.
fn agrees<'a>(record: Record<'a>, before: Left<'a>) -> Option<Left<'a>> {
    let call = CoderCall::try_from(record.call).ok()?;
    let mut numbers = Unread { left: record.body };
    let should = reader_answer(&mut numbers)?;
    let number = numbers.word()?;
    let mut parts = records::coded_behind(record, READER_NUMBERS, before)?;
    let given = reader_state(&mut parts.state)?;
    let answer = ask(call, before.bytes, given, number, parts.besides)?;
    (answer == should).then_some(parts.left)
}

fn replay(rt: &impl Print, file: &[u8]) -> io::Result<()> {
    let names = ["open", "account", "bit", "table", "number", "bits"];
    records::replay_run(rt, &names, file, agrees)
}

fn main(rt: HostRuntime) -> io::Result<()> {
    let mut buf = [0u8; 262144];
    let n = read_full::read_full(&mut rt.stdin(), &mut buf)?;
    replay(&rt, &buf[..n])
}
