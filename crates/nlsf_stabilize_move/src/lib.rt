// The stabiliser's move: the first value, the last, or a pair about its centre (RFC 6716, section 4.2.7.5.4). A move leaves no slack
// from the gap that it mends: both values of a pair come to lie equally far above the gaps before them.
#![tactic(auto)]

ghost use Rattle.std.specs.Prelude.{◌≡◌, List, ℕ, ◌+◌, ◌≤◌, ◌<◌, ℤ, length};
ghost use Rattle.ints.specs.Parts.{down};
ghost use Rattle.spectrum.specs.Distances.{move};
ghost use Rattle.spectrum.specs.Inner.{capped};
ghost use Rattle.spectrum.specs.Values.{Mag, at};
ghost use Rattle.nlsf_stabilize_slack.specs.Inner.{Held, Holds};
ghost use Rattle.nlsf_stabilize_move.specs.Inner.{odd, meeting};

// 1 of an odd gap, else 0: what halving it and doubling it leaves.
fn odd_of(gap: i16) -> i32
    requires { down gap ≡ 0 }
    ensures { result ≡ odd gap }
{
    let h = (gap as i32) >> 1;
    (gap as i32) - h * 2
}

// Where two slacks meet: in the middle, halved upward, between 0 and the room. Half an odd gap is rounded down, so that its pair comes
// to lie one higher before halving, and may reach one past the room.
fn meet(a: i32, b: i32, odd: i32, room: i32) -> i32
    requires { (Mag 65536 a × Mag 65536 b) × (Mag 1 odd × Mag 65536 room) }
    ensures { result ≡ meeting a b odd room }
{
    let c = (a + b + 1 + odd) >> 1;
    let most = room + odd;
    if c > most {
        return most;
    }
    if c < 0 {
        return 0;
    }
    c
}

// A value of at most 32,768 in 16 bits: only the fallback still meets 32,768, and makes the same of 32,767.
fn cap(x: i32) -> i16
    requires { Mag 32768 x }
    ensures { result ≡ capped x }
{
    x.min(32767) as i16
}

// Where the slacks about gap i meet.
fn meet_at(w: &[i32; 18], g: &[i16], i: usize, room: i32) -> i32
    requires w_len { ((length w.now ≡ 18) × ((k : ℕ) → Mag 65536 (at w.now k))) × Mag 65536 room }
    requires i_bound { (i < 17) × ((i < length g.now) × (down (at g.now i) ≡ 0)) }
    ensures { result ≡ meeting (at w.now i) (at w.now (i + 1)) (odd (at g.now i)) room }
{
    meet(w[i], w[i + 1], odd_of(g[i]), room)
}

// The move at place i.
pub fn move_at_run(v: &mut [i16], w: &mut [i32; 18], s: &[i32; 18], g: &[i16], i: usize)
    requires { Holds g.now v.old w.old s.now × (i ≤ length v.old) }
    ensures { (u : List ℤ) → Held g.now u v.old w.old s.now
        → Held g.now (move g.now u i) v.new w.new s.now }
{
    if i == 0 {
        w[1] = 0;
        v[0] = g[0];
        return;
    }
    // What the gaps leave stands behind the last value. It is read before the choice, which can't be guessed ahead.
    let room = w[17];
    if i == v.len() {
        w[i] = room;
        v[i - 1] = (room + s[i]) as i16;
        return;
    }
    let m = meet_at(w, g, i, room);
    w[i] = m;
    w[i + 1] = m;
    let low = m + s[i];
    v[i - 1] = low as i16;
    v[i] = cap(low + (g[i] as i32));
}
