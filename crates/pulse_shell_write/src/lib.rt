// The splits of a block's pulses, written as the reader reads them (RFC 6716, section 4.2.7.8.3): all halves are
// added up first, as by the crate's combine_pulses, so that one loop writes and the state stays where it is.
#![tactic(auto)]

ghost use Rattle.std.specs.Prelude.{◌≡◌, ◌^◌, ◌≤◌, length};
ghost use Rattle.entcode.specs.Flat.{out};
ghost use Rattle.entcode.specs.Inner.Writing.{Core};
ghost use Rattle.tree.specs.Inner.Growth.{of_symbols};
ghost use Rattle.tree.specs.Inner.Told.{Told};
ghost use Rattle.silk.specs.PulseSyntax.{total, shell};
ghost use Rattle.silk.specs.Inner.Pulses.{PulseRows};

use entcode::Enc;

// The p pulses of a block of 16 places. A split of no pulses says nothing.
pub fn silk_shell_encoder_run(buf: &mut [u8], w: Enc, rows: &[u8], places: &[u8], p: u32) -> Enc
    requires core { Core (out buf.old w) }
    requires total_bound { w.total ≤ 2 ^ 27 }
    requires pulse_rows { PulseRows rows.now }
    requires p_bound { (p ≤ 16) × (length places.now ≡ 16) × (total places.now ≡ p) }
    ensures { Told (out buf.old w) places.now (shell 4 p) (of_symbols 15) (out buf.new result) }
{
    let mut starts = [0usize; 15];
    let mut alls = [0u8; 15];
    let mut lefts = [0u8; 15];
    let count = pulse_shell_spoken::spoken_of_run(
        &mut starts,
        &mut alls,
        &mut lefts,
        places,
        p as u8,
    );
    let mut q = w;
    for k in 0..count {
        let start = starts[k];
        let end = start + (usize::from(alls[k]) + 1);
        q = entenc_run::ec_enc_icdf_run(buf, q, u32::from(lefts[k]), &rows[start..end], 8);
    }
    q
}
