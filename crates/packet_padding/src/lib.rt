// The padding of a packet that is written (RFC 6716 section 3.2.5): its length bytes, and how many bytes they count.
#![tactic(auto)]

ghost use Rattle.std.specs.Prelude.{◌+◌, ◌≤◌, ◌≡◌, length, replicate};
ghost use Rattle.numerals.specs.Inner.{Put};
ghost use Rattle.framing.specs.Padding.{pad_code, pad_tail};
ghost use Rattle.packet_padding.specs.Inner.{Puts};

use numerals::put_byte_run;

// n times one byte.
pub fn put_same_run(out: &mut [u8], at: usize, n: usize, b: u8) -> usize
    requires { at + n ≤ length out.old }
    ensures { Put n out.old at (replicate n b) out.new result }
{
    let end = at + n;
    out[at..end].fill(b);
    end
}

// The length bytes of padding of k bytes.
pub fn put_padding_run(out: &mut [u8], at: usize, k: usize) -> usize
    requires { (k ≤ 16384) × (at + length (pad_code k) ≤ length out.old) }
    ensures { Puts out.old at (pad_code k) out.new result }
{
    if k == 0 {
        at
    } else {
        let place = put_same_run(out, at, (k - 1) / 255, 255);
        put_byte_run(out, place, ((k - 1) % 255) as u8)
    }
}

// The bytes that the length bytes count.
pub fn tail_run(k: usize) -> usize
    ensures { result ≡ pad_tail k }
{
    let n = k.saturating_sub(1);
    n - n / 255
}
