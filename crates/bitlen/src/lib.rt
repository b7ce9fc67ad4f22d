// The bit length of a u32, by its leading zeros: what the account and the bounded numbers of the range coder count
// with.
#![tactic(auto)]

ghost use Rattle.std.specs.Prelude.{◌≡◌};
ghost use Rattle.bitlen.specs.Length.{bit_length};

pub fn ec_ilog(x: u32) -> u32
    ensures { result ≡ bit_length x }
{
    32 - x.leading_zeros()
}
