// Records one after the other, as docs/RECORDED.md lays them out: what a call's record leaves for the next, and what is
// counted and printed of the calls. What the programs that replay them share.
#![tactic(auto)]

ghost use Rattle.std.specs.Prelude.{◌≡◌, [], length, IfSome};

use record_bytes::numbers::Unread;
use record_head::{CutShort, Record, Records};
use std::io;

pub mod calls; // calls.rt: the calls by their numbers

// ---- the layout

// A state, eleven numbers; and an answer: refusal, value and the state handed back.
pub const STATE_BYTES: usize = 44;

pub const ANSWER_BYTES: usize = 52;

// An answer and the numbers behind it: of a reader and of line spectra one, of a writer two, of frames five. Of the
// programs, the input's length alone.
pub const READER_NUMBERS: usize = 56;

pub const WRITER_NUMBERS: usize = 60;

pub const FRAME_NUMBERS: usize = 72;

pub const PROGRAM_NUMBERS: usize = 4;

// The call of a record of bytes.
const BYTES: u8 = 0;

// What a record leaves for the next call: the bytes that it is given, and those from its state on.
#[derive(Clone, Copy)]
pub struct Left<'a> {
    pub bytes: &'a [u8],
    pub state: &'a [u8],
}

// Before the first call: no bytes, and the file's own in place of a state.
pub fn start(file: &[u8]) -> Left<'_>
    ensures { (result.bytes.now ≡ []) × (result.state.now ≡ file.now) }
{
    Left {
        bytes: &[],
        state: file,
    }
}

// What stands behind the numbers of a call that is given a state and may change its bytes: the state, what the call is
// given besides, and what it leaves.
#[derive(Clone, Copy)]
pub struct Parts<'a> {
    pub state: Unread<'a>,
    pub besides: &'a [u8],
    pub left: Left<'a>,
}

// The parts of what stands behind the numbers, by `how`, the layout's bits. The bytes after a call that changes them, as long as
// before, stand last.
fn parted<'a>(
    how: u8,
    handed_back: &'a [u8],
    behind: Unread<'a>,
    before: Left<'a>,
) -> Option<Parts<'a>>
    ensures { IfSome result (λ s. length s.left.bytes.now ≡ length before.entry.bytes.now) }
{
    let mut rest = behind;
    let state = if how % 2 == 1 {
        before.state
    } else {
        rest.bytes(STATE_BYTES)?
    };
    let (besides, bytes) = if how < 2 {
        (rest.left, before.bytes)
    } else {
        let size = rest.left.len().checked_sub(before.bytes.len())?;
        rest.left.split_at(size)
    };
    Some(Parts {
        state: Unread { left: state },
        besides,
        left: Left {
            bytes,
            state: handed_back,
        },
    })
}

// None where the record breaks the layout.
pub fn coded<'a>(record: Record<'a>, numbers: Unread<'a>, before: Left<'a>) -> Option<Parts<'a>>
    ensures { IfSome result (λ s. length s.left.bytes.now ≡ length before.entry.bytes.now) }
{
    let handed_back = record.body.get(ANSWER_BYTES - STATE_BYTES..)?;
    parted(record.how, handed_back, numbers, before)
}

// The same of a record whose answer and numbers have so many bytes.
pub fn coded_behind<'a>(record: Record<'a>, numbers: usize, before: Left<'a>) -> Option<Parts<'a>>
    ensures { IfSome result (λ s. length s.left.bytes.now ≡ length before.entry.bytes.now) }
{
    let behind = Unread {
        left: record.body.get(numbers..)?,
    };
    let handed_back = record.body.get(ANSWER_BYTES - STATE_BYTES..)?;
    parted(record.how, handed_back, behind, before)
}

// ---- a replay

// The numbers of calls, none of which is above 7, and that of bytes.
const NUMBERS: usize = 8;

// All calls agree, so many; or the one of this number is the first that differs or breaks the layout.
#[derive(Clone, Copy)]
enum Verdict {
    Agree(u32),
    Differs(u32),
}

// How many calls of each number agree, and the verdict: the replay ends at the first call that does not agree.
fn tally_run<'a, F: Fn(Record<'a>, Left<'a>) -> Option<Left<'a>>>(
    file: &'a [u8],
    agrees: F,
) -> ([u32; NUMBERS], Verdict)
    requires { F.IsAlwaysCallable agrees }
{
    let mut agreed = [0u32; NUMBERS];
    let mut calls: u32 = 0;
    let mut left = start(file);
    for record in (Records { file }) {
        match record {
            Ok(given) if given.call == BYTES => left.bytes = given.body,
            Ok(called) => {
                calls = calls.wrapping_add(1);
                let Some(after) = agrees(called, left) else {
                    return (agreed, Verdict::Differs(calls));
                };
                left = after;
                if let Some(count) = agreed.get_mut(usize::from(called.call)) {
                    *count = count.wrapping_add(1);
                }
            }
            Err(CutShort) => return (agreed, Verdict::Differs(calls.wrapping_add(1))),
        }
    }
    (agreed, Verdict::Agree(calls))
}

// Replays the records of a file; a call that agrees tells what it leaves. Prints how many calls of each number agree, by
// their names from 1 on, and the verdict.
pub fn replay_run<'a, F: Fn(Record<'a>, Left<'a>) -> Option<Left<'a>>>(
    rt: &impl Print,
    names: &[&str],
    file: &'a [u8],
    agrees: F,
) -> io::Result<()>
    requires { F.IsAlwaysCallable agrees }
{
    let (agreed, verdict) = tally_run(file, agrees);
    for (name, count) in names.iter().zip(&agreed[1..]) {
        println!(rt; "{name} {count}")?;
    }
    match verdict {
        Verdict::Agree(calls) => println!(rt; "all {calls} agree"),
        Verdict::Differs(call) => println!(rt; "call {call} differs"),
    }
}

#[cfg(test)]
mod tests {
    use super::*;
    use std::process::Abort;

    const BEFORE: Left<'static> = Left {
        bytes: &[200, 201],
        state: &[210; 44],
    };

    fn body_of_places() -> [u8; 120] {
        let mut body = [0; 120];
        for (place, byte) in (0..120).zip(&mut body) {
            *byte = place;
        }
        body
    }

    // What both answer of a reader's record whose call is given by `how`; its answer and number have 56 bytes.
    fn parts_are(
        rt: &impl Abort,
        body: &[u8; 120],
        how: u8,
        state: &[u8],
        besides: &[u8],
        bytes: &[u8],
    ) {
        let record = Record { call: 1, how, body };
        let numbers = Unread { left: &body[56..] };
        for parts in [
            coded(record, numbers, BEFORE),
            coded_behind(record, READER_NUMBERS, BEFORE),
        ] {
            let parts = parts.expect(rt, "no parts");
            assert_eq!(rt; parts.state.left, state, "state, how {how}");
            assert_eq!(rt; parts.besides, besides, "besides, how {how}");
            assert_eq!(rt; parts.left.bytes, bytes, "bytes left, how {how}");
            assert_eq!(rt; parts.left.state, &body[8..], "state left, how {how}");
        }
    }

    // By docs/RECORDED.md, "Layout".
    #[test]
    fn parts_by_how_a_call_is_given(rt: HostRuntime) {
        let body = body_of_places();
        parts_are(&rt, &body, 0, &body[56..100], &body[100..], BEFORE.bytes);
        parts_are(&rt, &body, 1, BEFORE.state, &body[56..], BEFORE.bytes);
        parts_are(&rt, &body, 2, &body[56..100], &body[100..118], &body[118..]);
        parts_are(&rt, &body, 3, BEFORE.state, &body[56..118], &body[118..]);
    }

    // `coded` takes numbers that are no part of the record; a count of the record's own bytes reaches none of them.
    #[test]
    fn numbers_beside_the_record(rt: HostRuntime) {
        let record = Record {
            call: 1,
            how: 0,
            body: &[220; 8],
        };
        let parts = coded(record, Unread { left: &[230; 45] }, BEFORE).expect(&rt, "no parts");
        assert_eq!(rt; parts.state.left, [230; 44].as_slice());
        assert_eq!(rt; parts.besides, [230].as_slice());
        assert_eq!(rt; parts.left.bytes, BEFORE.bytes);
        assert!(rt; parts.left.state.is_empty());
        for count in 0..10 {
            assert!(rt;
                coded_behind(record, count, BEFORE).is_none(),
                "count {count}"
            );
        }
    }
}
