// A block of a frame's pulses, written by its count and shift (RFC 6716, section 4.2.7.8): its splits, and its signs.
// A block without pulses says nothing.
#![tactic(auto)]

ghost use Rattle.std.specs.Prelude.{◌≡◌, false, map, ◌^◌, ◌<◌, ◌≤◌, pos, nat_abs, length};
ghost use Rattle.entcode.specs.Flat.{out};
ghost use Rattle.entcode.specs.Inner.Writing.{Core};
ghost use Rattle.tree.specs.Inner.Growth.{of_symbols};
ghost use Rattle.tree.specs.Inner.Told.{Told};
ghost use Rattle.silk.specs.PulseSyntax.{each, total, shell, sign_row_of, sign};
ghost use Rattle.silk.specs.Inner.Pulses.{PulseRows};
ghost use Rattle.silk.specs.PulseWriting.{shifted_by};

use entcode::Enc;
use pulse_numbers::FrameNumbers;

// The splits of a block with shift j and c pulses before low bits.
pub fn block_splits_run(buf: &mut [u8], w: Enc, rows: &[u8], part: &[i16], c: u32, j: u32) -> Enc
    requires core { Core (out buf.old w) }
    requires total_bound { w.total ≤ 2 ^ 27 }
    requires pulse_rows { PulseRows rows.now }
    requires part_len { (length part.now ≡ 16) × (c ≤ 16) × (j ≤ 10) × (total (shifted_by j part.now) ≡ c) }
    ensures { Told (out buf.old w) (shifted_by j part.now) (shell 4 c) (of_symbols 15) (out buf.new result) }
{
    let mut places = [0u8; 16];
    pulse_shifts::shrink_run(&mut places, part, j);
    pulse_shell_write::silk_shell_encoder_run(buf, w, rows, &places, c)
}

// Whether a block has a pulse: a count of 0 may have low bits behind it.
fn some_pulses(c: u8, j: u8) -> bool
    ensures { result ≡ false → (c ≡ 0) × (j ≡ 0) }
{
    (c != 0) | (j != 0)
}

// The signs of a block with shift j and c pulses before low bits.
pub fn block_signs_run(
    buf: &mut [u8],
    w: Enc,
    rows: &[u8],
    part: &[i16],
    c: u8,
    j: u8,
    f: FrameNumbers,
) -> Enc
    requires core { Core (out buf.old w) }
    requires total_bound { w.total ≤ 2 ^ 29 }
    requires pulse_rows { PulseRows rows.now }
    requires part_len { (length part.now ≡ 16) × (total (shifted_by j part.now) ≡ c) × (f.signal ≤ 2) × (f.offset ≤ 1) }
    ensures { Told (out buf.old w) part.now
        (each (pos 0) (sign (sign_row_of f.signal f.offset c)) (map nat_abs part.now))
        (of_symbols 16) (out buf.new result) }
{
    if some_pulses(c, j) {
        let row = pulse_row_places::sign_row_at_run(f.signal, f.offset, c);
        pulse_signs_write::silk_encode_signs_run(buf, w, &rows[row..row + 2], part)
    } else {
        w
    }
}
