// The stabiliser of line spectra (RFC 6716, section 4.2.7.5.4): at most 20 moves, then the fallback. Names as in the crate's
// NLSF_stabilize.rs.
#![tactic(auto)]

ghost use Rattle.std.specs.Prelude.{◌≡◌, false};
ghost use Rattle.spectrum.specs.Values.{total};
ghost use Rattle.spectrum.specs.Stabilising.{stabilise};
ghost use Rattle.spectrum.specs.Calls.{lengths_ok, stabilise_call};
ghost use Rattle.nlsf_stabilize_stays.specs.Inner.{stays};
ghost use Rattle.nlsf_stabilize.specs.Inner.{Ready, moves_of};

use gaps::ruled_sum_run;
use nlsf_stabilize_fallback::fall_back_run;
use nlsf_stabilize_move::move_at_run;
use nlsf_stabilize_search::{place_run, rises_run};
use nlsf_stabilize_slack::slacks_run;
use nlsf_stabilize_stays::stays_run;
use refusals::Refusal;
use spectrum::Moves;

mod gaps; // gaps.rt: the gap set's rule

// A vector that does not stay, stabilised, with the number of moves; sum is that of the gaps. The test stands behind
// the move, since callers have made it before. Behind the last move it spares the fallback, which leaves a vector
// that stays as it is.
pub fn stabilise_run(v: &mut [i16], g: &[i16], sum: i32) -> u32
    requires { (Ready g.now v.old × (sum ≡ total g.now)) × (stays g.now v.old ≡ false) }
    ensures { record { vector = v.new; moves = result } ≡ stabilise g.now v.old }
{
    let mut w = [32768 - sum; 18];
    let mut s = [0i32; 18];
    slacks_run(&mut w, &mut s, v, g);
    for m in 0..20 {
        let i = place_run(&w, v.len());
        move_at_run(v, &mut w, &s, g, i);
        if rises_run(&w, v.len()) {
            return m + 1;
        }
    }
    fall_back_run(v, g);
    20
}

// ---- the call

fn lengths_ok(vector: &[i16], gaps: &[i16]) -> bool
    ensures { result ≡ lengths_ok vector.now gaps.now }
{
    let n = vector.len();
    if (2 <= n) & (n <= 16) {
        gaps.len() == n + 1
    } else {
        false
    }
}

// The number of moves of a vector that is stabilised.
fn stabilised(vector: &mut [i16], gaps: &[i16]) -> Result<u32, Refusal>
    ensures { record { vector = vector.exit.now; answer = moves_of result } ≡ stabilise_call vector.entry.now gaps.now }
{
    if !lengths_ok(vector, gaps) {
        return Err(Refusal::Length);
    }
    if stays_run(vector, gaps) {
        return Ok(0);
    }
    match ruled_sum_run(gaps, vector.len()) {
        Some(sum) => Ok(stabilise_run(vector, gaps, sum)),
        None => Err(Refusal::Gaps),
    }
}

// Stabilised, with the number of moves; a refusal, 6 or 7, leaves the vector as it is.
pub fn silk_NLSF_stabilize(vector: &mut [i16], gaps: &[i16]) -> Moves
    ensures { record { vector = vector.exit.now; answer = result } ≡ stabilise_call vector.entry.now gaps.now }
{
    match stabilised(vector, gaps) {
        Ok(moves) => Moves { refusal: 0, moves },
        Err(refusal) => Moves {
            refusal: u32::from(refusal),
            moves: 0,
        },
    }
}
