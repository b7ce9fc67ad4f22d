// The pulse counts of a frame's blocks, read (RFC 6716, section 4.2.7.8.2): the first loop of the crate's
// decode_pulses.rs. The pulses' rows are lent whole.
#![tactic(auto)]

ghost use Rattle.std.specs.Prelude.{◌≡◌, ◌^◌, ◌<◌, ◌≤◌};
ghost use Rattle.lists.specs.AtMost.{AtMost};
ghost use Rattle.tree.specs.Inner.Growth.{of_symbols};
ghost use Rattle.silk.specs.PulseSyntax.{count, counts};
ghost use Rattle.silk.specs.Inner.Pulses.{PulseRows, blocks_from};
ghost use Rattle.symbol_reader.specs.Inner.{Along};

use pulse_row_places::{COUNT, COUNT_END};
use symbol_reader::Reader;

// For each block of a frame its count before low bits and the number of its low bits, in two arrays as the definition
// `blocks_from` takes them.
#[derive(Clone, Copy)]
pub struct BlocksRead {
    pub counts: [u8; 20],
    pub lows: [u8; 20],
}

// A block's count at a rate level, and the number of its low bits. 17 is no count but one more low bit and a fresh count.
fn count_run(r: &mut Reader, rows: &[u8], level: usize) -> (u32, u32)
    requires total_bound { r.old.state.total ≤ 2 ^ 29 }
    requires pulse_rows { PulseRows rows.now }
    requires level_bound { level < 9 }
    ensures along { Along r.old (count level) (of_symbols 11) (record { count = result.0; lows = result.1 }) r.new }
    ensures count_bound { (result.0 ≤ 16) × (result.1 ≤ 10) }
{
    let start = COUNT + level * 18;
    let mut v = r.symbol_run(&rows[start..start + 18]);
    let mut j: u32 = 0;
    while v == 17 {
        j += 1;
        let at = pulse_row_places::later_at(j);
        v = r.symbol_run(&rows[at..COUNT_END]);
    }
    (v, j)
}

// The counts of n blocks.
pub fn counts_run(r: &mut Reader, rows: &[u8], level: usize, n: usize) -> BlocksRead
    requires total_bound { r.old.state.total ≤ 2 ^ 28 }
    requires pulse_rows { PulseRows rows.now }
    requires level_bound { (level < 9) × (n ≤ 20) }
    ensures along { Along r.old (counts level n) (of_symbols 220) (blocks_from result.counts result.lows 0 n) r.new }
    ensures at_most { AtMost 16 result.counts × AtMost 10 result.lows }
{
    let mut counts = [0u8; 20];
    let mut lows = [0u8; 20];
    for i in 0..n {
        let b = count_run(r, rows, level);
        counts[i] = b.0 as u8;
        lows[i] = b.1 as u8;
    }
    BlocksRead { counts, lows }
}
