// The size of one frame after the other (RFC 6716 section 3.2): a length that is written, or what the last frame has.
#![tactic(auto)]

ghost use Rattle.std.specs.Prelude.{◌+◌, ◌≤◌, ◌≡◌, length, drop};
ghost use Rattle.framing.specs.Lengths.{length_of, width_of};
ghost use Rattle.packet_next.specs.Inner.{Next, Sized};

use framing::Form;
use packet_form::Coded;

// A length all of whose bytes are there. `length_run` of packet_form is its twin where they may be past the end: one for
// both would have a bounds check here too, where none is needed.
fn inside_run(s: &[u8], at: usize) -> Coded
    requires { at + width_of (drop at s.now) ≤ length s.now }
    ensures value_value { (result.value ≡ length_of (drop at s.now)) × (result.width ≡ width_of (drop at s.now)) }
    ensures value_bound { (result.value ≤ 1275) × (result.width ≤ 2) }
{
    let first = usize::from(s[at]);
    if first < 252 {
        Coded {
            value: first,
            width: 1,
        }
    } else {
        Coded {
            value: 4 * usize::from(s[at + 1]) + first,
            width: 2,
        }
    }
}

// The size of frame k, and the bytes of its length, if it is written.
pub fn next_run(s: &[u8], f: Form, last: usize, at: usize, k: usize) -> Coded
    requires { Next s.now f last at k }
    ensures { Sized s.now f at k result }
{
    if f.varied && k + 1 < f.count {
        inside_run(s, at)
    } else {
        Coded {
            value: last,
            width: 0,
        }
    }
}
