// The side indices of a frame, what is kept for the next, and the numbers of a call, by the bytes of a record
// (docs/RECORDED.md, "Layout"). None where too few are left.
#![tactic(auto)]

ghost use Rattle.std.specs.Prelude.{◌≡◌, ◌+◌, ◌<◌, length, MatchOption};

use record_bytes::numbers::Unread;
use silk::Indices;

// ---- side indices

pub fn side_indices(bytes: &mut Unread<'_>) -> Option<Indices>
    ensures { MatchOption result (length bytes.old.left.now < 34) (λ _. length bytes.new.left.now + 34 ≡ length bytes.old.left.now) }
{
    Some(Indices {
        gains: bytes.smalls()?,
        ltp: bytes.smalls()?,
        nlsf: bytes.smalls()?,
        lag: bytes.value()?,
        contour: bytes.small()?,
        signal: bytes.small()?,
        offset: bytes.small()?,
        interp: bytes.small()?,
        period: bytes.small()?,
        scale: bytes.small()?,
        seed: bytes.small()?,
    })
}

// ---- what is kept for the next frame

#[derive(Clone, Copy, PartialEq, Eq)]
pub struct Kept {
    pub prevtype: u32,
    pub prevlag: i16,
}

pub fn kept_for_next(bytes: &mut Unread<'_>) -> Option<Kept>
    ensures { MatchOption result (length bytes.old.left.now < 6) (λ _. length bytes.new.left.now + 6 ≡ length bytes.old.left.now) }
{
    Some(Kept {
        prevtype: bytes.word()?,
        prevlag: bytes.value()?,
    })
}

// ---- the numbers of a call

// Rate in kHz and subframes; active flag, mode and previous type, or signal type, offset type and rate level.
#[derive(Clone, Copy)]
pub struct Numbers {
    pub khz: u32,
    pub subframes: u32,
    pub third: u32,
    pub fourth: u32,
    pub fifth: u32,
}

pub fn call_numbers(bytes: &mut Unread<'_>) -> Option<Numbers>
    ensures { MatchOption result (length bytes.old.left.now < 20) (λ _. length bytes.new.left.now + 20 ≡ length bytes.old.left.now) }
{
    Some(Numbers {
        khz: bytes.word()?,
        subframes: bytes.word()?,
        third: bytes.word()?,
        fourth: bytes.word()?,
        fifth: bytes.word()?,
    })
}
