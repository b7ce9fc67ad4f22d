// Which shift each block of a frame's pulses is written with (document 01, "Pulses"): the smallest at which the
// shifted magnitudes total at most 16.
#![tactic(auto)]

ghost use Rattle.std.specs.Prelude.{◌≡◌, true, false, ◌*◌, ◌≤◌, List, [], length, MatchOption};
ghost use Rattle.silk.specs.PulseSyntax.{total, rows16};
ghost use Rattle.silk.specs.PulseWriting.{shifted_by};
ghost use Rattle.silk.specs.Inner.Pulses.{Shift, Planned};

use pulse_magnitude::magnitude;

// A block's count before low bits and its shift.
#[derive(Clone, Copy)]
pub struct BlockShift {
    pub count: u32,
    pub shift: u32,
}

// The same for each block of a frame.
#[derive(Clone, Copy)]
pub struct Plan {
    pub counts: [u8; 20],
    pub lows: [u8; 20],
}

// The shifted magnitudes of a block, added up.
fn total_at(part: &[i16], j: u32) -> u32
    requires { (length part.now ≡ 16) × (j ≤ 10) }
    ensures { result ≡ total (shifted_by j part.now) }
{
    let mut sum: u32 = 0;
    for k in 0..16 {
        sum += magnitude(part[k]) >> j;
    }
    sum
}

// None for a block that no shift suits.
fn shift_of(part: &[i16]) -> Option<BlockShift>
    requires { length part.now ≡ 16 }
    ensures { MatchOption result (Shift part.now 0 11) (λ b. Shift part.now b.count b.shift × (b.shift ≤ 10)) }
{
    for j in 0..11 {
        let count = total_at(part, j);
        if count <= 16 {
            return Some(BlockShift { count, shift: j });
        }
    }
    None
}

// None for a frame with such a block, which is refused.
pub fn plan_run(pulses: &[i16], n: usize) -> Option<Plan>
    requires { (n ≤ 20) × (length pulses.now ≡ n * 16) }
    ensures { MatchOption result (Planned (rows16 n pulses.now) [] [] false) (λ x. Planned (rows16 n pulses.now) x.counts x.lows true) }
{
    let mut counts = [0u8; 20];
    let mut lows = [0u8; 20];
    for i in 0..n {
        let b = shift_of(&pulses[i * 16..i * 16 + 16])?;
        counts[i] = b.count as u8;
        lows[i] = b.shift as u8;
    }
    Some(Plan { counts, lows })
}

// A block's shifted magnitudes are put into places.
pub fn shrink_run(places: &mut [u8], part: &[i16], j: u32)
    requires { (length places.old ≡ 16) × (length part.now ≡ 16) × (j ≤ 10) × (total (shifted_by j part.now) ≤ 16) }
    ensures { places.new ≡ shifted_by j part.now }
{
    for k in 0..16 {
        places[k] = (magnitude(part[k]) >> j) as u8;
    }
}
