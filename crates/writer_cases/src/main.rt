// Replays recorded calls of the writer: each record of standard input has a call and the crate's answer
// (docs/RECORDED.md has the layout). Prints how many calls of each kind agreed, and then that all did, or the number
// of the first that did not.
#![tactic(auto)]

use entcode::{Enc, Encoded};
use record_bytes::numbers::Unread;
use record_head::Record;
use record_states::{writer_answer, writer_state};
use records::calls::CoderCall;
use records::{Left, WRITER_NUMBERS};
use std::io;

// What a call is asked besides its state and its table.
#[derive(Clone, Copy)]
struct Asked {
    call: CoderCall,
    number: u32,
    value: u32,
}

fn ask(c: Asked, lent: &mut [u8], w: Enc, table: &[u8]) -> Encoded {
    match c.call {
        CoderCall::Open => tignarops::tg_enc_open(lent),
        CoderCall::Account => tignarops::tg_enc_account(lent, w),
        CoderCall::Bit => tignarops::tg_enc_bit(lent, w, c.value, c.number),
        CoderCall::Table => tignarops::tg_enc_icdf(lent, w, c.value, table, c.number),
        CoderCall::Number => tignarops::tg_enc_uint(lent, w, c.value, c.number),
        CoderCall::Bits => tignarops::tg_enc_bits(lent, w, c.value, c.number),
        CoderCall::Finish => tignarops::tg_enc_done(lent, w),
    }
}

// What the record's call leaves, where it answers and leaves what it should.
fn agrees<'a>(record: Record<'a>, before: Left<'a>) -> Option<Left<'a>> {
    let call = CoderCall::try_from(record.call).ok()?;
    let mut numbers = Unread { left: record.body };
    let should = writer_answer(&mut numbers)?;
    let number = numbers.word()?;
    let value = numbers.word()?;
    let mut parts = records::coded_behind(record, WRITER_NUMBERS, before)?;
    let given = writer_state(&mut parts.state)?;
    let mut space = [0u8; 1276];
    let lent = space.get_mut(..before.bytes.len())?;
    lent.copy_from_slice(before.bytes);
    let asked = Asked {
        call,
        number,
        value,
    };
    let answer = ask(asked, lent, given, parts.besides);
    (answer == should && lent[..] == parts.left.bytes[..]).then_some(parts.left)
}

fn replay(rt: &impl Print, file: &[u8]) -> io::Result<()> {
    let names = [
        "open", "account", "bit", "table", "number", "bits", "finish",
    ];
    records::replay_run(rt, &names, file, agrees)
}

fn main(rt: HostRuntime) -> io::Result<()> {
    let mut buf = [0u8; 524288];
    let n = read_full::read_full(&mut rt.stdin(), &mut buf)?;
    replay(&rt, &buf[..n])
}
