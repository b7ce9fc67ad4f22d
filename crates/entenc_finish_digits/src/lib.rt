// The end value (RFC 6716, section 5.1.5): its bits, its digits, and what is held back before them.
#![tactic(auto)]

ghost use Rattle.std.specs.Prelude.{◌≡◌, ◌+◌, ◌-◌, ◌^◌, ◌<◌, ◌≤◌};
ghost use Rattle.entcode.specs.Finish.{round_up, bits_of};
ghost use Rattle.entcode.specs.Flat.{out, held_of};
ghost use Rattle.entcode.specs.Inner.Writing.{Roomy, rested, digits_out};

use entcode::Enc;
use entenc_bytes::carry_out_run;

// The first multiple of 2^k at or above n.
pub fn round_up_run(n: u32, k: u32) -> u32
    requires { (k ≤ 31) × (n + 2 ^ k ≤ 2 ^ 32) }
    ensures { result ≡ round_up n (2 ^ k) }
{
    let last = (1u32 << k) - 1;
    let sum = std::num::wrapping_add_u32(n, last);
    (sum >> k) << k
}

// How many top bits of the end value hold whatever follows: the range's leading zeros, or one more.
pub fn end_bits_run(rng: u32, val: u32) -> u32
    requires { (2 ^ 23 < rng) × (rng ≤ 2 ^ 31) × (val + rng < 2 ^ 32) }
    ensures { result ≡ bits_of rng val }
{
    let l = u32::leading_zeros(rng);
    let k = 31 - l;
    let end = round_up_run(val, k);
    let top = std::num::wrapping_add_u32(val, rng);
    let left = top - end;
    if left < (1u32 << k) { l + 1 } else { l }
}

// The held byte and the run go out, if there are any; a byte 0 is held then.
fn put_rest(buf: &mut [u8], w: Enc) -> Enc
    requires roomy { Roomy (out buf.old w) }
    requires rem_bound { (held_of w.rem ≤ 256) × (w.ext < 2 ^ 32 - 1) }
    ensures { out buf.new result ≡ rested (out buf.old w) }
{
    let h = w.rem;
    if 0 <= h {
        carry_out_run(buf, w, 0)
    } else {
        if 0 < w.ext {
            carry_out_run(buf, w, 0)
        } else {
            w
        }
    }
}

// The end value's top digits, and then all that is held back.
pub fn put_digits_run(buf: &mut [u8], from: Enc, end: u32, count: u32) -> Enc
    requires roomy { Roomy (out buf.old from) }
    requires rem_bound { (held_of from.rem ≤ 256) × (from.ext + count ≤ 2 ^ 31) }
    ensures { out buf.new result ≡ digits_out (out buf.old from) end count }
{
    let mut w = from;
    let mut v = end;
    for _ in 0..count {
        w = carry_out_run(buf, w, v / 0x80_0000);
        v = 256 * (v % 0x80_0000);
    }
    put_rest(buf, w)
}
