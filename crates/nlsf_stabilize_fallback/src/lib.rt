// The stabiliser's fallback (RFC 6716, section 4.2.7.5.4): sorted, upward with a sum that saturates (RFC 8251,
// section 7), downward.
#![tactic(auto)]

ghost use Rattle.std.specs.Prelude.{◌≡◌, suc, ◌<◌, ◌≤◌, ◌+ℤ◌, ◌-ℤ◌, length, drop};
ghost use Rattle.ints.specs.Parts.{up, down};
ghost use Rattle.spectrum.specs.Values.{min_z, max_z, Within};
ghost use Rattle.spectrum.specs.Gaps.{Ruled};
ghost use Rattle.spectrum.specs.Fallback.{sat16, raised, lowered, fallback};
ghost use Rattle.nlsf_stabilize_fallback.specs.Inner.{NoneBelow};

use sort::silk_insertion_sort_increasing_all_values_int16;

mod sort; // sort.rt: sorting

// The smaller of x and what stands behind it less the gap between them.
fn lower_one(x: i16, next: i32, gap: i16) -> i16
    requires { (up next ≤ 32768) × ((down next ≤ 32768) × (down (next -ℤ gap) ≤ 32768)) }
    ensures { result ≡ min_z x (next -ℤ gap) }
{
    i32::from(x).min(next - i32::from(gap)) as i16
}

// Downward: the last at most 32,768 less the last gap, each other at most the one behind it less the gap between them.
fn go_down(v: &mut [i16], g: &[i16])
    requires { (length g.now ≡ suc (length v.old)) × Within 0 32767 (lowered (drop 1 g.now) v.old) }
    ensures { v.new ≡ lowered (drop 1 g.now) v.old }
{
    let mut next: i32 = 32768;
    for j in (0..v.len()).rev() {
        let x = lower_one(v[j], next, g[j + 1]);
        v[j] = x;
        next = i32::from(x);
    }
}

// The larger of x and the value before it plus the gap, that sum saturated to 16 bits.
fn raise_one(x: i16, prev: i16, gap: i16) -> i16
    requires { down gap ≡ 0 }
    ensures { result ≡ max_z x (sat16 (prev +ℤ gap)) }
{
    x.max(prev.saturating_add(gap))
}

// Upward: the first at least the first gap, each other at least the one before it plus the gap between them.
fn go_up(v: &mut [i16], g: &[i16])
    requires { (0 < length v.old) × ((length g.now ≡ suc (length v.old)) × NoneBelow g.now) }
    ensures { v.new ≡ raised g.now v.old }
{
    let mut prev: i16 = 0;
    for i in 0..v.len() {
        let x = raise_one(v[i], prev, g[i]);
        v[i] = x;
        prev = x;
    }
}

// Sorted, upward, downward.
pub fn fall_back_run(v: &mut [i16], g: &[i16])
    requires { (0 < length v.old) × ((length g.now ≡ suc (length v.old)) × Ruled g.now) }
    ensures { v.new ≡ fallback g.now v.old }
{
    silk_insertion_sort_increasing_all_values_int16(v);
    go_up(v, g);
    go_down(v, g);
}
