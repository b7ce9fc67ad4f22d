// Recorded calls that write a frame: each is asked once more, and compared with what it should answer and leave.
use entcode::{Enc, Encoded};
use record_bytes::numbers::{Unread, fill};
use record_frames::{Kept, Numbers, call_numbers, kept_for_next, side_indices};
use record_head::Record;
use record_states::{writer_answer, writer_state};
use records::{FRAME_NUMBERS, Left};
use silk::{Indices, IndicesWritten};

// What is asked of a buffer, and what it should answer and leave. A twin of `Reading`: the C interface has `Enc` and `Dec` apart.
#[derive(Clone, Copy)]
struct Writing<'a> {
    buffer: &'a [u8],
    given: Enc,
    numbers: Numbers,
    besides: &'a [u8],
    should: Encoded,
    left: Left<'a>,
}

fn writing_of<'a>(record: Record<'a>, before: Left<'a>) -> Option<Writing<'a>> {
    let mut body = Unread { left: record.body };
    let should = writer_answer(&mut body)?;
    let numbers = call_numbers(&mut body)?;
    let mut parts = records::coded_behind(record, FRAME_NUMBERS, before)?;
    let given = writer_state(&mut parts.state)?;
    Some(Writing {
        buffer: before.bytes,
        given,
        numbers,
        besides: parts.besides,
        should,
        left: parts.left,
    })
}

fn write_indices(c: Writing<'_>, lent: &mut [u8], x: Indices, prevlag: i16) -> IndicesWritten {
    let n = c.numbers;
    tignarops::tg_encode_indices(
        lent,
        c.given,
        x,
        n.khz,
        n.subframes,
        n.third,
        n.fourth,
        n.fifth,
        prevlag,
    )
}

fn write_pulses(c: Writing<'_>, lent: &mut [u8], pulses: &[i16]) -> Encoded {
    let n = c.numbers;
    tignarops::tg_encode_pulses(
        lent,
        c.given,
        pulses,
        n.khz,
        n.subframes,
        n.third,
        n.fourth,
        n.fifth,
    )
}

// The call is given side indices and the previous lag; what it should keep stands behind.
pub(super) fn indices<'a>(record: Record<'a>, before: Left<'a>) -> Option<Left<'a>> {
    let c = writing_of(record, before)?;
    let mut besides = Unread { left: c.besides };
    let given = side_indices(&mut besides)?;
    let prevlag = besides.value()?;
    let kept = kept_for_next(&mut besides)?;
    if !besides.left.is_empty() {
        return None;
    }
    let mut space = [0u8; 1276];
    let lent = space.get_mut(..c.buffer.len())?;
    lent.copy_from_slice(c.buffer);
    let a = write_indices(c, lent, given, prevlag);
    let answer = Encoded {
        refusal: a.refusal,
        value: 0,
        state: a.state,
    };
    let keeps = Kept {
        prevtype: a.prevtype,
        prevlag: a.prevlag,
    };
    (answer == c.should && keeps == kept && lent[..] == c.left.bytes[..]).then_some(c.left)
}

// The call is given pulses. A frame has at most 320.
pub(super) fn pulses<'a>(record: Record<'a>, before: Left<'a>) -> Option<Left<'a>> {
    let c = writing_of(record, before)?;
    if 642 < c.besides.len() {
        return None;
    }
    let mut space = [0i16; 321];
    let pulses = space.get_mut(..c.besides.len() / 2)?;
    fill(pulses, c.besides);
    let mut space = [0u8; 1276];
    let lent = space.get_mut(..c.buffer.len())?;
    lent.copy_from_slice(c.buffer);
    let answer = write_pulses(c, lent, pulses);
    (answer == c.should && lent[..] == c.left.bytes[..]).then_some(c.left)
}
