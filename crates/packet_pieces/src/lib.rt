// The pieces of a packet that is written (RFC 6716 section 3), put into a lent buffer one behind the other.
#![tactic(auto)]

ghost use Rattle.std.specs.Prelude.{◌+◌, ◌≤◌, ◌<◌, ◌≡◌, length};
ghost use Rattle.lists.specs.AtMost.{AtMost};
ghost use Rattle.framing.specs.Lengths.{length_code, length_codes};
ghost use Rattle.framing.specs.Writing.{count_byte};
ghost use Rattle.packet_padding.specs.Inner.{Puts};
ghost use Rattle.packet_pieces.specs.Inner.{front_of, middle_of, whole_of};

use listing::put_word_run;
use numerals::put_byte_run;
use packet_padding::{put_padding_run, put_same_run, tail_run};

// ---- lengths

// A length, in one byte or two.
fn put_length_run(out: &mut [u8], at: usize, n: usize) -> usize
    requires { (n ≤ 1275) × (at + length (length_code n) ≤ length out.old) }
    ensures { Puts out.old at (length_code n) out.new result }
{
    if n < 252 {
        put_byte_run(out, at, n as u8)
    } else {
        let first = 252 + n % 4;
        let place = put_byte_run(out, at, first as u8);
        put_byte_run(out, place, ((n - first) / 4) as u8)
    }
}

// Lengths, one behind the other.
fn put_lengths_run(out: &mut [u8], at: usize, sizes: &[u16]) -> usize
    requires { AtMost 1275 sizes.now × (at + length (length_codes sizes.now) ≤ length out.old) }
    ensures { Puts out.old at (length_codes sizes.now) out.new result }
{
    let mut place = at;
    for size in sizes {
        place = put_length_run(out, place, usize::from(*size));
    }
    place
}

// ---- the packet

fn put_front_run(out: &mut [u8], toc: u8, three: bool, b: u8, k: usize) -> usize
    requires { (k ≤ 16384) × (length (front_of toc three b k) ≤ length out.old) }
    ensures { Puts out.old 0 (front_of toc three b k) out.new result }
{
    let place = put_byte_run(out, 0, toc);
    if three {
        let next = put_byte_run(out, place, b);
        put_padding_run(out, next, k)
    } else {
        place
    }
}

fn put_middle_run(out: &mut [u8], at: usize, varied: bool, sizes: &[u16]) -> usize
    requires { (1 ≤ length sizes.now) × AtMost 1275 sizes.now
        × (at + length (middle_of varied sizes.now) ≤ length out.old) }
    ensures { Puts out.old at (middle_of varied sizes.now) out.new result }
{
    if varied {
        put_lengths_run(out, at, &sizes[..sizes.len() - 1])
    } else {
        at
    }
}

fn count_byte(n: usize, varied: bool, k: usize) -> usize
    requires { n ≤ 12 }
    ensures { (result ≡ count_byte n varied k) × (result < 256) }
{
    n + 64 * usize::from(0 < k) + 128 * usize::from(varied)
}

// The first byte, in arrangement 3 the count byte and the padding's length bytes, the written lengths, the frames, and
// the padding's bytes.
pub fn put_whole_run(
    out: &mut [u8],
    toc: u8,
    three: bool,
    k: usize,
    varied: bool,
    sizes: &[u16],
    frames: &[u8],
) -> usize
    requires k_bound { (k ≤ 16384) × (1 ≤ length sizes.now) × (length sizes.now ≤ 12) × AtMost 1275 sizes.now }
    requires frames_in_bounds { length (whole_of toc three k varied sizes.now frames.now) ≤ length out.old }
    ensures { Puts out.old 0 (whole_of toc three k varied sizes.now frames.now)
        out.new result }
{
    let b = count_byte(sizes.len(), varied, k) as u8;
    let zeros = tail_run(k);
    let first = put_front_run(out, toc, three, b, k);
    let second = put_middle_run(out, first, varied, sizes);
    let third = put_word_run(out, second, frames);
    put_same_run(out, third, zeros, 0)
}
