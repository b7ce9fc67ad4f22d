// The excitation of a frame (RFC 6716, section 4.2.7.8), read into one slice of blocks of 16 places: rate level,
// counts, splits, low bits, signs. The loops over blocks of the crate's decode_pulses.rs and code_signs.rs.
#![tactic(auto)]

ghost use Rattle.std.specs.Prelude.{◌≡◌, ◌*◌, ◌^◌, ◌<◌, ◌≤◌, length};
ghost use Rattle.lists.specs.AtMost.{AtMost};
ghost use Rattle.silk.specs.Inner.Pulses.{PulseRows, mags, Small, Sixteen, Held, Split, Lowered, Signed};
ghost use Rattle.silk.specs.PulseSyntax.{rows16};
ghost use Rattle.decode_pulses_run.specs.Inner.{Excited};

use pulse_counts_read::BlocksRead;
use pulse_numbers::FrameNumbers;
use pulse_row_places::{LOW_BIT, LOW_BIT_END};
use symbol_reader::Reader;

// The magnitudes before low bits of n blocks.
fn shells(r: &mut Reader, rows: &[u8], x: BlocksRead, pulses: &mut [i16], n: usize)
    requires total_bound { r.old.state.total ≤ 2 ^ 26 }
    requires pulse_rows { PulseRows rows.now }
    requires n_bound { (n ≤ 20) × (length pulses.old ≡ n * 16) × AtMost 16 x.counts }
    ensures split { Split r.old.packet.now r.old.state x.counts x.lows n pulses.new r.new.state }
    ensures packet { r.new.packet ≡ r.old.packet }
{
    for i in 0..n {
        let block = &mut pulses[i * 16..i * 16 + 16];
        pulse_shell_read::silk_shell_decoder_run(r, rows, block, u32::from(x.counts[i]));
    }
}

// The low bits of n blocks.
fn lows(r: &mut Reader, rows: &[u8], x: BlocksRead, pulses: &mut [i16], n: usize)
    requires total_bound { r.old.state.total ≤ 2 ^ 26 }
    requires pulse_rows { PulseRows rows.now }
    requires n_bound { (n ≤ 20) × AtMost 10 x.lows × Held Small n pulses.old }
    ensures lowered { Lowered r.old.packet.now r.old.state x.counts x.lows (rows16 n (mags pulses.old)) n pulses.new r.new.state }
    ensures packet { r.new.packet ≡ r.old.packet }
{
    for i in 0..n {
        pulse_lows_read::block_lows_run(
            r,
            &rows[LOW_BIT..LOW_BIT_END],
            &mut pulses[i * 16..i * 16 + 16],
            u32::from(x.lows[i]),
        );
    }
}

// The signs of n blocks.
fn signs(r: &mut Reader, rows: &[u8], x: BlocksRead, pulses: &mut [i16], f: FrameNumbers)
    requires total_bound { r.old.state.total ≤ 2 ^ 26 }
    requires pulse_rows { PulseRows rows.now }
    requires blocks_bound { (f.blocks ≤ 20) × (f.signal ≤ 2) × (f.offset ≤ 1) × Held Sixteen f.blocks pulses.old }
    ensures signed { Signed r.old.packet.now r.old.state f.signal f.offset x.counts x.lows
        (rows16 f.blocks (mags pulses.old)) f.blocks pulses.new r.new.state }
    ensures packet { r.new.packet ≡ r.old.packet }
{
    for i in 0..f.blocks {
        let row = pulse_row_places::sign_row_at_run(f.signal, f.offset, x.counts[i]);
        let empty = (x.counts[i] == 0) & (x.lows[i] == 0);
        pulse_signs_read::silk_decode_signs_run(
            r,
            &rows[row..row + 2],
            &mut pulses[i * 16..i * 16 + 16],
            empty,
        );
    }
}

// All of it, for a frame of n blocks.
pub fn silk_decode_pulses_run(
    r: &mut Reader,
    rows: &[u8],
    pulses: &mut [i16],
    n: usize,
    signal: u32,
    offset: u32,
)
    requires total_bound { r.old.state.total ≤ 2 ^ 25 }
    requires pulse_rows { PulseRows rows.now }
    requires n_bound { (n ≤ 20) × (length pulses.old ≡ n * 16) × (signal ≤ 2) × (offset ≤ 1) }
    ensures excited { Excited r.old.packet.now r.old.state signal offset n pulses.new r.new.state }
    ensures packet { r.new.packet ≡ r.old.packet }
{
    let at = ((signal / 2) as usize) * 9;
    let level = r.symbol_run(&rows[at..at + 9]) as usize;
    let x = pulse_counts_read::counts_run(r, rows, level, n);
    shells(r, rows, x, pulses, n);
    lows(r, rows, x, pulses, n);
    let f = FrameNumbers {
        blocks: n,
        signal,
        offset,
    };
    signs(r, rows, x, pulses, f);
}
