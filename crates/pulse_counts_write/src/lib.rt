// The pulse counts of a frame's blocks, written as the reader reads them (RFC 6716, section 4.2.7.8.2): a block's sum
// of pulses before low bits (the crate's sum_pulses), behind a 17 for each of its low bits (its nRshifts).
#![tactic(auto)]

ghost use Rattle.std.specs.Prelude.{◌≡◌, ◌^◌, ◌<◌, ◌≤◌};
ghost use Rattle.lists.specs.AtMost.{AtMost};
ghost use Rattle.entcode.specs.Flat.{out};
ghost use Rattle.entcode.specs.Inner.Writing.{Core};
ghost use Rattle.tree.specs.Inner.Growth.{of_symbols};
ghost use Rattle.tree.specs.Inner.Told.{Told};
ghost use Rattle.silk.specs.PulseSyntax.{count_said, low_counts, counts};
ghost use Rattle.silk.specs.Inner.Pulses.{PulseRows, blocks_from};

use entcode::Enc;
use pulse_row_places::{COUNT, COUNT_END};

// What is said after j low bits.
fn count_said(j: u32, sum: u32, lows: u32) -> u32
    ensures { result ≡ count_said j (record { count = sum; lows = lows }) }
{
    if j < lows { 17 } else { sum }
}

// What follows the first symbol of a block: one for each low bit.
fn later_tell(buf: &mut [u8], from: Enc, rows: &[u8], sum: u32, lows: u32) -> Enc
    requires core { Core (out buf.old from) }
    requires total_bound { from.total ≤ 2 ^ 29 }
    requires pulse_rows { PulseRows rows.now }
    requires sum_bound { (sum ≤ 16) × (lows ≤ 10) }
    ensures { Told (out buf.old from) (record { count = sum; lows = lows })
        (low_counts 10 0 (count_said 0 (record { count = sum; lows = lows }))) (of_symbols 10) (out buf.new result) }
{
    let mut w = from;
    for k in 0..lows {
        let j = k + 1;
        let at = pulse_row_places::later_at(j);
        let v = count_said(j, sum, lows);
        w = entenc_run::ec_enc_icdf_run(buf, w, v, &rows[at..COUNT_END], 8);
    }
    w
}

// The counts of n blocks at a rate level.
pub fn counts_tell_run(
    buf: &mut [u8],
    from: Enc,
    rows: &[u8],
    level: usize,
    sums: [u8; 20],
    lows: [u8; 20],
    n: usize,
) -> Enc
    requires core { Core (out buf.old from) }
    requires total_bound { from.total ≤ 2 ^ 28 }
    requires pulse_rows { PulseRows rows.now }
    requires level_bound { (level < 9) × (n ≤ 20) }
    requires at_most { AtMost 16 sums × AtMost 10 lows }
    ensures { Told (out buf.old from) (blocks_from sums lows 0 n) (counts level n) (of_symbols 220) (out buf.new result) }
{
    let start = COUNT + level * 18;
    let mut w = from;
    for i in 0..n {
        let sum = u32::from(sums[i]);
        let shift = u32::from(lows[i]);
        let first = count_said(0, sum, shift);
        w = entenc_run::ec_enc_icdf_run(buf, w, first, &rows[start..start + 18], 8);
        if shift != 0 {
            w = later_tell(buf, w, rows, sum, shift);
        }
    }
    w
}
