// Replays recorded calls on frames: each record of standard input has a call and the crate's answer (docs/RECORDED.md
// has the layout). Prints how many calls of each kind agreed, and then that all did, or the number of the first that
// did not.
#![tactic(auto)]

use record_head::Record;
use records::Left;
use records::calls::FrameCall;
use std::io;

mod reading; // reading.rt: the calls that read
mod writing; // writing.rt: the calls that write

// What the record's call leaves, where it answers and leaves what it should.
fn agrees<'a>(record: Record<'a>, before: Left<'a>) -> Option<Left<'a>> {
    match FrameCall::try_from(record.call).ok()? {
        FrameCall::ReadIndices => reading::indices(record, before),
        FrameCall::ReadPulses => reading::pulses(record, before),
        FrameCall::WriteIndices => writing::indices(record, before),
        FrameCall::WritePulses => writing::pulses(record, before),
    }
}

fn replay(rt: &impl Print, file: &[u8]) -> io::Result<()> {
    let names = [
        "read indices",
        "read pulses",
        "write indices",
        "write pulses",
    ];
    records::replay_run(rt, &names, file, agrees)
}

fn main(rt: HostRuntime) -> io::Result<()> {
    let mut buf = [0u8; 524288];
    let n = read_full::read_full(&mut rt.stdin(), &mut buf)?;
    replay(&rt, &buf[..n])
}
