// The sizes of a packet's frames: their sum, whether they are alike, and whether a packet may hold them (RFC 6716
// sections 3.1 and 3.4).
#![tactic(auto)]

ghost use Rattle.std.specs.Prelude.{◌≡◌, eqb};
ghost use Rattle.lists.specs.Every.{every};
ghost use Rattle.refusals.specs.Inner.{refusal_of};
ghost use Rattle.framing.specs.Lengths.{total};
ghost use Rattle.framing.specs.Rules.{fits_frame};
ghost use Rattle.framing.specs.Writing.{alike, frames_rule};

use packet_time::in_time;
use refusals::Refusal;

// Whether the sizes are n bytes together. Their sum may be above a usize.
pub fn adds_up(sizes: &[u16], n: usize) -> bool
    ensures { result ≡ eqb n (total sizes.now) }
{
    let mut left = n;
    for size in sizes {
        let size = usize::from(*size);
        if left < size {
            return false;
        }
        left -= size;
    }
    left == 0
}

// Whether all are one size.
pub fn alike_run(sizes: &[u16]) -> bool
    ensures { result ≡ alike sizes.now }
{
    match sizes.split_first() {
        Some((first, rest)) => rest.iter().all(|size| *size == *first),
        None => true,
    }
}

// The longest frame (RFC 6716, section 3.4, rule R2).
const LONGEST_FRAME: u16 = 1275;

// Whether none is longer.
fn small_run(sizes: &[u16]) -> bool
    ensures { result ≡ every fits_frame sizes.now }
{
    sizes.iter().all(|size| *size <= LONGEST_FRAME)
}

// Refusals 10 and 11.
#[tactic(auto, unfolding(framing::specs::Writing::frames_rule, refusals::specs::First::first_of))]
pub fn frames_rule(config: u32, sizes: &[u16]) -> Result<(), Refusal>
    ensures { refusal_of result ≡ frames_rule config sizes.now }
{
    if sizes.is_empty() || !small_run(sizes) || !in_time(sizes.len(), config as usize) {
        Err(Refusal::Framing)
    } else if 11 < config {
        Err(Refusal::NotSpeech)
    } else {
        Ok(())
    }
}
