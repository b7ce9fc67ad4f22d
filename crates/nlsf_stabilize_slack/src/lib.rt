// The stabiliser's numbers (RFC 6716, section 4.2.7.5.4): how far each value lies above the sum of the gaps up to it. They stand
// between 0 and what the gaps leave of 32,768, and rise just where the vector keeps its gaps. Moves are whole numbers, one of which
// can be 32,768: 32 bits hold them.
#![tactic(auto)]

ghost use Rattle.std.specs.Prelude.{◌≡◌, suc, ◌≤◌, ◌<◌, pos, ◌-ℤ◌, length, replicate};
ghost use Rattle.spectrum.specs.Gaps.{Ruled};
ghost use Rattle.spectrum.specs.Values.{top, total};
ghost use Rattle.nlsf_stabilize_slack.specs.Inner.{Held};

// Of a vector: w, lent with what the gaps leave of 32,768 in every place, and the sums of its gaps, s.
pub fn slacks_run(w: &mut [i32; 18], s: &mut [i32; 18], v: &[i16], g: &[i16])
    requires w_value { (w.old ≡ replicate 18 (top -ℤ total g.now)) × (s.old ≡ replicate 18 (pos 0)) }
    requires ruled { (Ruled g.now × (length g.now ≡ suc (length v.now))) × ((0 < length v.now) × (length v.now ≤ 16)) }
    ensures { Held g.now v.now v.now w.new s.new }
{
    w[0] = 0;
    let mut sum: i32 = 0;
    for i in 0..v.len() {
        sum += i32::from(g[i]);
        s[i + 1] = sum;
        w[i + 1] = i32::from(v[i]) - sum;
    }
}
