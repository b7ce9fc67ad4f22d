// Replays recorded inputs of the two programs: each record of standard input has an input and the text that the
// program prints by the crate's answers (docs/RECORDED.md has the layout). Prints how many inputs of each program
// agreed, and then that all did, or the number of the first that did not.
#![tactic(auto)]

use record_bytes::numbers::Unread;
use record_head::Record;
use records::calls::ProgramCall;
use records::{Left, PROGRAM_NUMBERS};
use std::io;

// ---- one input

fn lists(input: &[u8], text: &[u8]) -> bool {
    let mut out = [0u8; 4096];
    let n = lister_text::lister_text(input, &mut out);
    out[..n] == text[..]
}

fn stabilises(input: &[u8], text: &[u8]) -> bool {
    let mut out = [0u8; 256];
    let n = stabiliser_text::stabiliser_text(input, &mut out);
    out[..n] == text[..]
}

// As many of the given bytes as there is room for, and behind them the filler.
fn fill_up(room: &mut [u8], given: &[u8], filler: u8) {
    let n = room.len().min(given.len());
    room[..n].copy_from_slice(&given[..n]);
    room[n..].fill(filler);
}

// Whether the program prints the text. Its input, which has at most as many bytes as the lister reads, is the given bytes
// cut short or filled up.
fn prints(call: ProgramCall, size: usize, given: &[u8], filler: u8, text: &[u8]) -> Option<bool> {
    let mut space = [0u8; 65546];
    let input = space.get_mut(..size)?;
    fill_up(input, given, filler);
    Some(match call {
        ProgramCall::FrameLister => lists(input, text),
        ProgramCall::NlsfStabiliser => stabilises(input, text),
    })
}

// ---- one record

// The bytes stay, where the program prints the record's text.
fn agrees<'a>(record: Record<'a>, before: Left<'a>) -> Option<Left<'a>> {
    let call = ProgramCall::try_from(record.call).ok()?;
    let mut body = Unread { left: record.body };
    let size = body.word()? as usize;
    let text = record.body.get(PROGRAM_NUMBERS..)?;
    let same = prints(call, size, before.bytes, record.how, text)?;
    same.then_some(before)
}

fn replay(rt: &impl Print, file: &[u8]) -> io::Result<()> {
    records::replay_run(rt, &["frame_lister", "nlsf_stabiliser"], file, agrees)
}

fn main(rt: HostRuntime) -> io::Result<()> {
    let mut buf = [0u8; 524288];
    let n = read_full::read_full(&mut rt.stdin(), &mut buf)?;
    replay(&rt, &buf[..n])
}
