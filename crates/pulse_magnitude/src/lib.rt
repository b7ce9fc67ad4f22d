// How large a pulse is (document 01, "Pulses"): its magnitude, which shifts and low bits are counted of.
#![tactic(auto)]

ghost use Rattle.std.specs.Prelude.{◌≡◌, nat_abs};

// Whatever its sign: 32,768 for -32,768.
pub fn magnitude(pulse: i16) -> u32
    ensures { result ≡ nat_abs pulse }
{
    u32::from(pulse.unsigned_abs())
}
