// The splits of a block's pulses, read (RFC 6716, section 4.2.7.8.3): 16 to 8 to 4 to 2 to 1 places, left half first,
// depth first. Names as in the crate's shell_coder.rs. The pulses' rows are lent whole.
#![tactic(auto)]

ghost use Rattle.std.specs.Prelude.{◌≡◌, ◌^◌, ◌≤◌, length};
ghost use Rattle.tree.specs.Inner.Growth.{of_symbols};
ghost use Rattle.silk.specs.PulseSyntax.{shell};
ghost use Rattle.silk.specs.Inner.Pulses.{PulseRows, Placed};

use pulse_shell_halves::{decode_split_run, half_count_run, shell_8_run};
use symbol_reader::Reader;

// The p pulses of a block of 16 places; nothing is asked for a block that has none.
pub fn silk_shell_decoder_run(r: &mut Reader, rows: &[u8], places: &mut [i16], p: u32)
    requires total_bound { r.old.state.total ≤ 2 ^ 27 }
    requires pulse_rows { PulseRows rows.now }
    requires p_bound { (p ≤ 16) × (length places.old ≡ 16) }
    ensures placed { Placed r.old.packet.now r.old.state (shell 4 p) (of_symbols 15) places.new r.new.state }
    ensures packet { r.new.packet ≡ r.old.packet }
{
    if p == 0 {
        pulse_shell_empty::clear(places);
        return;
    }
    let left = decode_split_run(r, rows, 3, p);
    for h in 0..2 {
        let c = half_count_run(h, left, p);
        shell_8_run(r, rows, &mut places[h * 8..h * 8 + 8], c);
    }
}
