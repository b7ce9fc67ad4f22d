// Recorded calls that read a frame: each is asked once more, and compared with what it should answer and leave.
use entcode::{Dec, Decoded};
use record_bytes::numbers::{Unread, fill};
use record_frames::{Kept, Numbers, call_numbers, kept_for_next, side_indices};
use record_head::Record;
use record_states::{reader_answer, reader_state};
use records::{FRAME_NUMBERS, Left};
use silk::{Indices, IndicesRead};

// What is asked of a packet, and what it should answer and leave.
#[derive(Clone, Copy)]
struct Reading<'a> {
    packet: &'a [u8],
    given: Dec,
    numbers: Numbers,
    besides: &'a [u8],
    should: Decoded,
    left: Left<'a>,
}

fn reading_of<'a>(record: Record<'a>, before: Left<'a>) -> Option<Reading<'a>> {
    let mut body = Unread { left: record.body };
    let should = reader_answer(&mut body)?;
    let numbers = call_numbers(&mut body)?;
    let mut parts = records::coded_behind(record, FRAME_NUMBERS, before)?;
    let given = reader_state(&mut parts.state)?;
    Some(Reading {
        packet: before.bytes,
        given,
        numbers,
        besides: parts.besides,
        should,
        left: parts.left,
    })
}

fn read_indices(c: Reading<'_>, x: Indices, prevlag: i16) -> IndicesRead {
    let n = c.numbers;
    tignarops::tg_decode_indices(
        c.packet,
        c.given,
        x,
        n.khz,
        n.subframes,
        n.third,
        n.fourth,
        n.fifth,
        prevlag,
    )
}

fn read_pulses(c: Reading<'_>, pulses: &mut [i16]) -> Decoded {
    let n = c.numbers;
    tignarops::tg_decode_pulses(
        c.packet,
        c.given,
        pulses,
        n.khz,
        n.subframes,
        n.third,
        n.fourth,
    )
}

// The call is given side indices and the previous lag; what it should leave of them and of the previous type stands behind.
pub(super) fn indices<'a>(record: Record<'a>, before: Left<'a>) -> Option<Left<'a>> {
    let c = reading_of(record, before)?;
    let mut besides = Unread { left: c.besides };
    let given = side_indices(&mut besides)?;
    let prevlag = besides.value()?;
    let left = side_indices(&mut besides)?;
    let kept = kept_for_next(&mut besides)?;
    if !besides.left.is_empty() {
        return None;
    }
    let a = read_indices(c, given, prevlag);
    let answer = Decoded {
        refusal: a.refusal,
        value: 0,
        state: a.state,
    };
    let keeps = Kept {
        prevtype: a.prevtype,
        prevlag: a.prevlag,
    };
    (answer == c.should && a.indices == left && keeps == kept).then_some(c.left)
}

// The call is given pulses; those that it should leave stand behind. A frame has at most 320.
pub(super) fn pulses<'a>(record: Record<'a>, before: Left<'a>) -> Option<Left<'a>> {
    let c = reading_of(record, before)?;
    let half = c.besides.len() / 2;
    if 642 < half {
        return None;
    }
    let (given, after) = c.besides.split_at(half);
    let mut space = [0i16; 321];
    let pulses = space.get_mut(..half / 2)?;
    fill(pulses, given);
    let answer = read_pulses(c, pulses);
    let mut space = [0i16; 321];
    let left = space.get_mut(..half / 2)?;
    fill(left, after);
    (answer == c.should && pulses[..] == left[..]).then_some(c.left)
}
