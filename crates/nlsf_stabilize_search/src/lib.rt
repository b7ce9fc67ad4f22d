// The stabiliser's search: the first smallest difference of a vector to its least gaps (RFC 6716, section 4.2.7.5.4), which is the
// first smallest step of its slacks; and whether none is below 0.
#![tactic(auto)]

ghost use Rattle.std.specs.Prelude.{◌≡◌, true, false, ℕ, suc, ◌≤◌, length};
ghost use Rattle.spectrum.specs.Inner.{First, step};
ghost use Rattle.spectrum.specs.Values.{Mag, at};
ghost use Rattle.nlsf_stabilize_search.specs.Inner.{Searched, UpTo, Falls};

// The place of the first smallest step.
fn first_smallest(w: &[i32]) -> usize
    requires { (2 ≤ length w.now) × ((k : ℕ) → Mag 65536 (at w.now k)) }
    ensures { (n : ℕ) → suc n ≡ length w.now → First (step w.now) n result }
{
    let mut x = w[1];
    let mut least = x - w[0];
    let mut place: usize = 0;
    for i in 1..w.len() - 1 {
        let y = w[i + 1];
        let d = y - x;
        if d < least {
            least = d;
            place = i;
        }
        x = y;
    }
    place
}

// The place of the first smallest step of n + 1 or some more. Either book's order has its own call, whose number of turns is then
// known to the compiler: it makes them one after the other, without jumps that can't be guessed ahead.
pub fn place_run(w: &[i32; 18], n: usize) -> usize
    requires { ((length w.now ≡ 18) × (n ≤ 16)) × ((k : ℕ) → Mag 65536 (at w.now k)) }
    ensures { Searched w.now n result }
{
    let all = &w[..];
    if n <= 10 {
        first_smallest(&all[..12])
    } else {
        first_smallest(all)
    }
}

// Whether none of the first n + 1 steps is below 0.
pub fn rises_run(w: &[i32; 18], n: usize) -> bool
    requires { (length w.now ≡ 18) × (n ≤ 16) }
    ensures { (result ≡ true → UpTo (suc n) w.now) × (result ≡ false → Falls (suc n) w.now) }
{
    let mut x = w[0];
    for i in 1..n + 2 {
        let y = w[i];
        if y < x {
            return false;
        }
        x = y;
    }
    true
}
