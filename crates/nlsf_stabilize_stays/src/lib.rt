// The stabiliser's test whether a vector stays (RFC 6716, section 4.2.7.5.4): one that keeps every gap does, so neither the gaps'
// sum nor the smallest difference is asked for.
#![tactic(auto)]

ghost use Rattle.std.specs.Prelude.{◌≡◌, ◌&&◌, ◌||◌, suc, pos, ◌+ℤ◌, length};
ghost use Rattle.std.specs.Int.Signed.{lt_z, le_z};
ghost use Rattle.spectrum.specs.Values.{Mag, top};
ghost use Rattle.nlsf_stabilize_stays.specs.Inner.{stays};

// Whether the gap is negative, or x does not keep it from p.
fn lost(p: i32, gap: i16, x: i32) -> bool
    requires { Mag 32768 p }
    ensures { result ≡ (lt_z gap (pos 0) || lt_z x (p +ℤ gap)) }
{
    (gap < 0) | (x < p + (gap as i32))
}

// Whether the last gap is 1 or more, and p keeps it from 32,768.
fn ends(p: i32, gap: i16) -> bool
    requires { Mag 32768 p }
    ensures { result ≡ (le_z (pos 1) gap && le_z (p +ℤ gap) top) }
{
    (1 <= gap) & (p + (gap as i32) <= 32768)
}

// Whether the gaps meet their rule and the vector keeps every one of them. Then their sum is at most 32,768, since
// they lie side by side below it.
pub fn stays_run(v: &[i16], g: &[i16]) -> bool
    requires { length g.now ≡ suc (length v.now) }
    ensures { result ≡ stays g.now v.now }
{
    let mut p: i32 = 0;
    let mut i: usize = 0;
    // Two places a turn: half as many jumps back. A range by twos would not leave i for the last place, which is read behind the loop.
    while i + 1 < v.len() {
        let x = v[i] as i32;
        let y = v[i + 1] as i32;
        if lost(p, g[i], x) | lost(x, g[i + 1], y) {
            return false;
        }
        p = y;
        i += 2;
    }
    if i < v.len() {
        let x = v[i] as i32;
        return !lost(p, g[i], x) & ends(x, g[i + 1]);
    }
    ends(p, g[i])
}
