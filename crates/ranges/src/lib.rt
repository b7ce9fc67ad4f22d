// Whether numbers lie in a range.
#![tactic(auto)]

ghost use Rattle.std.specs.Prelude.{◌≡◌};
ghost use Rattle.lists.specs.Every.{every};
ghost use Rattle.ranges.specs.InRange.{in_range};

// Each number lies from least to most.
pub fn all_in_range(xs: &[i8], least: i8, most: i8) -> bool
    ensures { result ≡ every (in_range least most) xs.now }
{
    let mut ok = true;
    for x in xs {
        ok = ok & ((least <= *x) & (*x <= most));
    }
    ok
}
