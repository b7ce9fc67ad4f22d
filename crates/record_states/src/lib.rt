// States, eleven numbers each, and answers: refusal, value and state (docs/RECORDED.md, "Layout"). None where too few bytes
// are left.
#![tactic(auto)]

ghost use Rattle.std.specs.Prelude.{◌≡◌, ◌+◌, ◌<◌, length, MatchOption};

use entcode::{Dec, Decoded, Enc, Encoded};
use record_bytes::numbers::Unread;

pub fn reader_state(bytes: &mut Unread<'_>) -> Option<Dec>
    ensures { MatchOption result (length bytes.old.left.now < 44) (λ _. length bytes.new.left.now + 44 ≡ length bytes.old.left.now) }
{
    Some(Dec {
        storage: bytes.word()?,
        endoffs: bytes.word()?,
        window: bytes.word()?,
        wbits: bytes.word()?,
        total: bytes.word()?,
        offs: bytes.word()?,
        rng: bytes.word()?,
        val: bytes.word()?,
        ext: bytes.word()?,
        rem: bytes.word()?,
        error: bytes.word()?,
    })
}

// The last two have a sign. Twins of the reader's: the C interface has `Dec` and `Enc`, `Decoded` and `Encoded` apart.
pub fn writer_state(bytes: &mut Unread<'_>) -> Option<Enc>
    ensures { MatchOption result (length bytes.old.left.now < 44) (λ _. length bytes.new.left.now + 44 ≡ length bytes.old.left.now) }
{
    Some(Enc {
        storage: bytes.word()?,
        endoffs: bytes.word()?,
        window: bytes.word()?,
        wbits: bytes.word()?,
        total: bytes.word()?,
        offs: bytes.word()?,
        rng: bytes.word()?,
        val: bytes.word()?,
        ext: bytes.word()?,
        rem: bytes.signed()?,
        error: bytes.signed()?,
    })
}

pub fn reader_answer(bytes: &mut Unread<'_>) -> Option<Decoded>
    ensures { MatchOption result (length bytes.old.left.now < 52) (λ _. length bytes.new.left.now + 52 ≡ length bytes.old.left.now) }
{
    Some(Decoded {
        refusal: bytes.word()?,
        value: bytes.word()?,
        state: reader_state(bytes)?,
    })
}

pub fn writer_answer(bytes: &mut Unread<'_>) -> Option<Encoded>
    ensures { MatchOption result (length bytes.old.left.now < 52) (λ _. length bytes.new.left.now + 52 ≡ length bytes.old.left.now) }
{
    Some(Encoded {
        refusal: bytes.word()?,
        value: bytes.word()?,
        state: writer_state(bytes)?,
    })
}
