// Signed sums kept in 16 bits: what `wrapping_add` of i16 is in the crate.
#![tactic(auto)]

ghost use Rattle.std.specs.Prelude.{◌≤◌, ◌≡◌, ◌+ℤ◌};
ghost use Rattle.ints.specs.Parts.{up, down};
ghost use Rattle.ints.specs.Wrap.{wrap16};

// A number near the range of 16 bits, kept in 16 bits.
pub fn fold16_run(s: i32) -> i16
    requires { (up s ≤ 65535) × (down s ≤ 65536) }
    ensures { result ≡ wrap16 s }
{
    if s > 32767 {
        (s - 65536) as i16
    } else if s < -32768 {
        (s + 65536) as i16
    } else {
        s as i16
    }
}

// The sum, kept in 16 bits.
pub fn add16(a: i16, b: i16) -> i16
    ensures { result ≡ wrap16 (a +ℤ b) }
{
    a.wrapping_add(b)
}
