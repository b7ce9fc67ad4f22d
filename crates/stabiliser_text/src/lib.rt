// What the stabiliser program prints for an input, put into a lent buffer.
#![tactic(auto)]

ghost use Rattle.std.specs.Prelude.{◌+◌, ◌*◌, ◌≤◌, ◌≡◌, length};
ghost use Rattle.numerals.specs.Inner.{Put};
ghost use Rattle.listing.specs.Printed.{printed};
ghost use Rattle.stabiliser_text.specs.StabiliserText.{sections_text, stabiliser_text};

use listing::put_refused_run;
use sections::{byte_at, fill_run};

// The two sections of a whole input, stabilised.
fn put_stabilised(out: &mut [u8], vector: &mut [i16], gaps: &mut [i16], input: &[u8]) -> usize
    requires in_bounds { 256 ≤ length out.old }
    requires input_len { length input.now ≡ 2 + 2 * length vector.old + 2 * length gaps.old }
    ensures { Put 256 out.old 0
        (sections_text input.now (length vector.old) (length gaps.old)) out.new result }
{
    fill_run(vector, input, 1);
    fill_run(gaps, input, 2 + 2 * vector.len());
    let a = nlsf_stabilize::silk_NLSF_stabilize(vector, gaps);
    stabiliser_text_answer::put_answer_run(out, a, vector)
}

// The text of any input; 256 bytes have room for each.
pub fn stabiliser_text(input: &[u8], out: &mut [u8; 256]) -> usize
    ensures { record { buffer = out.new; count = result } ≡ printed (stabiliser_text input.now) out.old }
{
    let n = byte_at(input, 0);
    let second = 1 + 2 * n;
    let m = byte_at(input, second);
    if input.len() == second + 1 + 2 * m {
        // as many as a count of one byte can say
        let mut vector = [0; 255];
        let mut gaps = [0; 255];
        put_stabilised(out, &mut vector[..n], &mut gaps[..m], input)
    } else {
        put_refused_run(out, 0, 9)
    }
}
