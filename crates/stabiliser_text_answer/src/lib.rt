// What the stabiliser program prints of an answer, put into a lent buffer.
#![tactic(auto)]

ghost use Rattle.std.specs.Prelude.{◌≤◌, length};
ghost use Rattle.numerals.specs.Inner.{Put};
ghost use Rattle.stabiliser_text_answer.specs.Inner.{Small};
ghost use Rattle.stabiliser_text_answer.specs.StabiliserAnswer.{answer_text};

use listing::{put_counted_run, put_line_run, put_refused_run};
use spectrum::Moves;

// The moves and the vector, or the refusal.
pub fn put_answer_run(out: &mut [u8], a: Moves, vector: &[i16]) -> usize
    requires in_bounds { 256 ≤ length out.old }
    requires small { Small (length vector.now) a }
    ensures { Put 256 out.old 0 (answer_text (record { vector = vector.entry.now; answer = a })) out.new result }
{
    if a.refusal == 0 {
        let place = put_line_run(out, 0, b"rounds", &[a.moves as i16]);
        put_counted_run(out, place, b"vector", vector)
    } else {
        put_refused_run(out, 0, a.refusal)
    }
}
