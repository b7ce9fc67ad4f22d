// The excitation of a frame (RFC 6716, section 4.2.7.8), written from one slice of blocks of 16 places by a plan of
// counts and shifts: rate level, counts, splits, low bits, signs.
#![tactic(auto)]

ghost use Rattle.std.specs.Prelude.{◌≡◌, ◌*◌, ◌^◌, ◌<◌, ◌≤◌, length, take};
ghost use Rattle.lists.specs.AtMost.{AtMost};
ghost use Rattle.entcode.specs.Flat.{out};
ghost use Rattle.entcode.specs.Inner.Writing.{Core};
ghost use Rattle.tree.specs.Inner.Growth.{of_symbols};
ghost use Rattle.tree.specs.Inner.Told.{Told};
ghost use Rattle.silk.specs.PulseSyntax.{excitation, rows16};
ghost use Rattle.silk.specs.Inner.Pulses.{PulseRows, Suited, SplitsTold, LowsTold, SignsTold};
ghost use Rattle.silk.specs.PulseWriting.{excited};

use entcode::Enc;
use pulse_block_write::{block_signs_run, block_splits_run};
use pulse_numbers::FrameNumbers;
use pulse_row_places::{LOW_BIT, LOW_BIT_END};
use pulse_shifts::Plan;

// The splits of n blocks.
fn splits(buf: &mut [u8], from: Enc, rows: &[u8], pulses: &[i16], x: Plan, n: usize) -> Enc
    requires core { Core (out buf.old from) }
    requires total_bound { from.total ≤ 2 ^ 26 }
    requires pulse_rows { PulseRows rows.now }
    requires n_bound { (n ≤ 20) × (length pulses.now ≡ n * 16) × Suited (take n x.lows) (rows16 n pulses.now) x.counts x.lows }
    ensures { SplitsTold (out buf.old from) x.counts x.lows pulses.now n (out buf.new result) }
{
    let mut w = from;
    for i in 0..n {
        let c = u32::from(x.counts[i]);
        let j = u32::from(x.lows[i]);
        if c != 0 {
            w = block_splits_run(buf, w, rows, &pulses[i * 16..i * 16 + 16], c, j);
        }
    }
    w
}

// The low bits of n blocks.
fn lows(buf: &mut [u8], from: Enc, rows: &[u8], pulses: &[i16], x: Plan, n: usize) -> Enc
    requires core { Core (out buf.old from) }
    requires total_bound { from.total ≤ 2 ^ 26 }
    requires pulse_rows { PulseRows rows.now }
    requires n_bound { (n ≤ 20) × (length pulses.now ≡ n * 16) × AtMost 10 x.lows }
    ensures { LowsTold (out buf.old from) x.counts x.lows pulses.now n (out buf.new result) }
{
    let mut w = from;
    for i in 0..n {
        w = pulse_lows_write::block_lows_tell_run(
            buf,
            w,
            &rows[LOW_BIT..LOW_BIT_END],
            &pulses[i * 16..i * 16 + 16],
            u32::from(x.lows[i]),
        );
    }
    w
}

// The signs of n blocks.
fn signs(buf: &mut [u8], from: Enc, rows: &[u8], pulses: &[i16], x: Plan, f: FrameNumbers) -> Enc
    requires core { Core (out buf.old from) }
    requires total_bound { from.total ≤ 2 ^ 26 }
    requires pulse_rows { PulseRows rows.now }
    requires blocks_bound { (f.blocks ≤ 20) × (length pulses.now ≡ f.blocks * 16) × (f.signal ≤ 2) × (f.offset ≤ 1) }
    requires suited { Suited (take f.blocks x.lows) (rows16 f.blocks pulses.now) x.counts x.lows }
    ensures { SignsTold (out buf.old from) x.counts x.lows pulses.now f.blocks f.signal f.offset
        (out buf.new result) }
{
    let mut w = from;
    for i in 0..f.blocks {
        w = block_signs_run(
            buf,
            w,
            rows,
            &pulses[i * 16..i * 16 + 16],
            x.counts[i],
            x.lows[i],
            f,
        );
    }
    w
}

// All of it, for a frame of n blocks: each block with the plan's count and shift.
pub fn silk_encode_pulses_run(
    buf: &mut [u8],
    w: Enc,
    rows: &[u8],
    pulses: &[i16],
    x: Plan,
    f: FrameNumbers,
    rate: u32,
) -> Enc
    requires core { Core (out buf.old w) }
    requires total_bound { w.total ≤ 2 ^ 25 }
    requires pulse_rows { PulseRows rows.now }
    requires blocks_bound { (f.blocks ≤ 20) × (length pulses.now ≡ f.blocks * 16) × (f.signal ≤ 2) × (f.offset ≤ 1) × (rate ≤ 8) }
    requires suited { Suited (take f.blocks x.lows) (rows16 f.blocks pulses.now) x.counts x.lows }
    ensures { Told (out buf.old w) (excited rate (take f.blocks x.lows) (rows16 f.blocks pulses.now))
        (excitation f.signal f.offset f.blocks) (of_symbols 4041) (out buf.new result) }
{
    let n = f.blocks;
    let at = ((f.signal / 2) as usize) * 9;
    let a = entenc_run::ec_enc_icdf_run(buf, w, rate, &rows[at..at + 9], 8);
    let c = pulse_counts_write::counts_tell_run(buf, a, rows, rate as usize, x.counts, x.lows, n);
    let s = splits(buf, c, rows, pulses, x, n);
    let l = lows(buf, s, rows, pulses, x, n);
    signs(buf, l, rows, pulses, x, f)
}
