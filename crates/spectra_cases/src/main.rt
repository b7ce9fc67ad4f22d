// Replays recorded calls on line spectra: each record of standard input has a call and the crate's answer
// (docs/RECORDED.md has the layout). Prints how many calls of each kind agreed, and then that all did, or the number
// of the first that did not.
#![tactic(auto)]

use record_bytes::numbers::{Unread, fill};
use record_head::Record;
use records::calls::SpectraCall;
use records::{Left, READER_NUMBERS, STATE_BYTES};
use spectrum::{Moves, Spectrum};
use std::io;

// ---- one call

// By the 17 indices.
fn decode(vector: &mut [i16], khz: u32, indices: &[u8]) -> Option<Moves> {
    if indices.len() != 17 {
        return None;
    }
    let index = Unread { left: indices }.smalls()?;
    Some(nlsf_decode::silk_NLSF_decode(vector, Spectrum { index }, khz))
}

// By the gaps, of which there are 18 at most.
fn stabilise(vector: &mut [i16], gaps: &[u8]) -> Option<Moves> {
    if 36 < gaps.len() {
        return None;
    }
    let mut space = [0i16; 18];
    let lent = space.get_mut(..gaps.len() / 2)?;
    fill(lent, gaps);
    Some(nlsf_stabilize::silk_NLSF_stabilize(vector, lent))
}

// ---- one record

// The bytes of the vector that stands in a state, of 17 values at most.
fn vector_of<'a>(state: &mut Unread<'a>) -> Option<&'a [u8]> {
    let mut vector = Unread {
        left: state.bytes(STATE_BYTES)?,
    };
    let count = vector.word()?;
    if 17 < count {
        return None;
    }
    vector.bytes(2 * count as usize)
}

// What the record's call leaves, where it answers and leaves what it should.
fn agrees<'a>(record: Record<'a>, before: Left<'a>) -> Option<Left<'a>> {
    let call = SpectraCall::try_from(record.call).ok()?;
    let mut numbers = Unread { left: record.body };
    let should = Moves {
        refusal: numbers.word()?,
        moves: numbers.word()?,
    };
    let after = vector_of(&mut numbers)?;
    let khz = numbers.word()?;
    let mut parts = records::coded_behind(record, READER_NUMBERS, before)?;
    let given = vector_of(&mut parts.state)?;
    let mut space = [0i16; 17];
    let vector = space.get_mut(..given.len() / 2)?;
    fill(vector, given);
    let answer = match call {
        SpectraCall::Decode => decode(vector, khz, parts.besides)?,
        SpectraCall::Stabilise => stabilise(vector, parts.besides)?,
    };
    let mut space = [0i16; 17];
    let left = space.get_mut(..after.len() / 2)?;
    fill(left, after);
    (answer == should && vector[..] == left[..]).then_some(parts.left)
}

fn replay(rt: &impl Print, file: &[u8]) -> io::Result<()> {
    records::replay_run(rt, &["decode", "stabilise"], file, agrees)
}

fn main(rt: HostRuntime) -> io::Result<()> {
    let mut buf = [0u8; 262144];
    let n = read_full::read_full(&mut rt.stdin(), &mut buf)?;
    replay(&rt, &buf[..n])
}
