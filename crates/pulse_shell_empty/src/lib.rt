// A block without pulses.
#![tactic(auto)]

ghost use Rattle.std.specs.Prelude.{◌≡◌, pos, length, replicate};

// No place has a pulse.
pub fn clear(places: &mut [i16])
    ensures { places.new ≡ replicate (length places.old) (pos 0) }
{
    places.fill(0);
}
