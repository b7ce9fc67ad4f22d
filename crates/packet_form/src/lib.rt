// The numbers that stand in a packet before its frames (RFC 6716 section 3.2): lengths, padding, and the form.
#![tactic(auto)]

ghost use Rattle.std.specs.Prelude.{◌+◌, ◌≤◌, ◌≡◌, length, drop};
ghost use Rattle.framing.specs.Lengths.{length_of, width_of, lengths, widths, total};
ghost use Rattle.framing.specs.Padding.{pad_lengths, pad_bytes};
ghost use Rattle.framing.specs.Form.{form_of, plain as plain_of, firsts, head};
ghost use Rattle.packet_form.specs.Inner.{Bounded};

use framing::Form;
use sections::byte_at;

// ---- lengths

// A length and the bytes that it takes; or lengths together.
#[derive(Clone, Copy)]
pub struct Coded {
    pub value: usize,
    pub width: usize,
}

const NOTHING: Coded = Coded { value: 0, width: 0 };

fn length_run(s: &[u8], at: usize) -> Coded
    requires { at ≤ 9000000 }
    ensures value_value { (result.value ≡ length_of (drop at s.now)) × (result.width ≡ width_of (drop at s.now)) }
    ensures value_bound { (result.value ≤ 1275) × (result.width ≤ 2) }
{
    let first = byte_at(s, at);
    if first < 252 {
        Coded {
            value: first,
            width: 1,
        }
    } else {
        Coded {
            value: 4 * byte_at(s, at + 1) + first,
            width: 2,
        }
    }
}

// n of them together.
fn lengths_run(s: &[u8], at: usize, n: usize) -> Coded
    requires { (at ≤ 8000000) × (n ≤ 63) }
    ensures value_value { (result.value ≡ total (lengths n (drop at s.now)))
        × (result.width ≡ widths n (drop at s.now)) }
    ensures value_bound { (result.value ≤ 100000) × (result.width ≤ 200) }
{
    let mut value = 0;
    let mut width = 0;
    for _ in 0..n {
        let next = length_run(s, at + width);
        value += next.value;
        width += next.width;
    }
    Coded { value, width }
}

// ---- the form

// The padding's length bytes from a place on, as a width, and the bytes that they count.
fn padding_run(s: &[u8], at: usize) -> Coded
    requires { (at ≤ 2) × (length s.now ≤ 16384) }
    ensures value_value { (result.value ≡ pad_bytes (drop at s.now)) × (result.width ≡ pad_lengths (drop at s.now)) }
    ensures value_bound { (result.value ≤ 5000000) × (result.width ≤ 20000) }
{
    // `skip`, `take_while` and `count` in place of this loop took a fourth more for a padded frame.
    let mut n = 0;
    while byte_at(s, at + n) == 255 {
        n += 1;
    }
    Coded {
        value: 254 * n + byte_at(s, at + n),
        width: n + 1,
    }
}

fn plain(count: usize, varied: bool) -> Form
    ensures { result ≡ plain_of count varied }
{
    Form {
        count,
        varied,
        own: 1,
        lens: 0,
        pad: 0,
    }
}

#[tactic(auto, unfolding(framing::specs::Form::form_of))]
pub fn form_run(s: &[u8]) -> Form
    requires { length s.now ≤ 16384 }
    ensures value { result ≡ form_of s.now }
    ensures bounded { Bounded result }
{
    match byte_at(s, 0) % 4 {
        0 => plain(1, false),
        1 => plain(2, false),
        2 => plain(2, true),
        _ => {
            let b = byte_at(s, 1);
            let padding = if b / 64 % 2 == 1 {
                padding_run(s, 2)
            } else {
                NOTHING
            };
            Form {
                count: b % 64,
                varied: b / 128 % 2 == 1,
                own: 2,
                lens: padding.width,
                pad: padding.value,
            }
        }
    }
}

// The written lengths together; none where they are not written.
pub fn firsts_run(s: &[u8], f: Form) -> Coded
    requires { Bounded f × (1 ≤ f.count) }
    ensures value_value { (result.value ≡ total (firsts f s.now)) × (f.own + f.lens + result.width ≡ head f s.now) }
    ensures value_bound { (result.value ≤ 100000) × (result.width ≤ 200) }
{
    if f.varied {
        lengths_run(s, f.own + f.lens, f.count - 1)
    } else {
        NOTHING
    }
}
