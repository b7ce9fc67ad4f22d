// The splits of a block's pulses below the first, read (RFC 6716, section 4.2.7.8.3): 8 to 4 to 2 to 1 places, left half
// first, depth first. Names as in the crate's shell_coder.rs. The pulses' rows are lent whole.
#![tactic(auto)]

ghost use Rattle.std.specs.Prelude.{◌≡◌, cond, ◌-◌, ◌^◌, ◌<◌, ◌≤◌, eqb, length};
ghost use Rattle.tree.specs.Inner.Growth.{of_symbols};
ghost use Rattle.silk.specs.PulseSyntax.{split, shell};
ghost use Rattle.silk.specs.Inner.Pulses.{PulseRows, Placed};
ghost use Rattle.symbol_reader.specs.Inner.{Along};

use symbol_reader::Reader;

// How many of p pulses lie in the left half.
pub fn decode_split_run(r: &mut Reader, rows: &[u8], table: usize, p: u32) -> u32
    requires total_bound { r.old.state.total ≤ 2 ^ 30 }
    requires pulse_rows { PulseRows rows.now }
    requires table_bound { (table < 4) × (p ≤ 16) }
    ensures along { Along r.old (split table p) (of_symbols 1) result r.new }
    ensures value_le_p { result ≤ p }
{
    if p == 0 {
        return 0;
    }
    let n = p as usize;
    let start = pulse_row_places::split_start_run(table, n);
    r.symbol_run(&rows[start..start + (n + 1)])
}

// The p pulses of 2 places.
fn shell_2(r: &mut Reader, rows: &[u8], places: &mut [i16], p: u32)
    requires total_bound { r.old.state.total ≤ 2 ^ 30 }
    requires pulse_rows { PulseRows rows.now }
    requires p_bound { (p ≤ 16) × (length places.old ≡ 2) }
    ensures placed { Placed r.old.packet.now r.old.state (shell 1 p) (of_symbols 1) places.new r.new.state }
    ensures packet { r.new.packet ≡ r.old.packet }
{
    let left = decode_split_run(r, rows, 0, p);
    places[0] = left as i16;
    places[1] = (p - left) as i16;
}

// How many of p pulses lie in half h, where `left` lie in the first. Halves are read by a loop, so that the code of a
// half stands once, where its reader stays in registers.
pub fn half_count_run(h: usize, left: u32, p: u32) -> u32
    requires { left ≤ p }
    ensures { result ≡ cond (eqb h 0) left (p - left) }
{
    if h == 0 { left } else { p - left }
}

// The p pulses of 4 places. A level is a function of its own: a const argument must be a parameter's name alone, not its half.
fn shell_4(r: &mut Reader, rows: &[u8], places: &mut [i16], p: u32)
    requires total_bound { r.old.state.total ≤ 2 ^ 29 }
    requires pulse_rows { PulseRows rows.now }
    requires p_bound { (p ≤ 16) × (length places.old ≡ 4) }
    ensures placed { Placed r.old.packet.now r.old.state (shell 2 p) (of_symbols 3) places.new r.new.state }
    ensures packet { r.new.packet ≡ r.old.packet }
{
    let left = decode_split_run(r, rows, 1, p);
    for h in 0..2 {
        let c = half_count_run(h, left, p);
        shell_2(r, rows, &mut places[h * 2..h * 2 + 2], c);
    }
}

// The p pulses of 8 places.
pub fn shell_8_run(r: &mut Reader, rows: &[u8], places: &mut [i16], p: u32)
    requires total_bound { r.old.state.total ≤ 2 ^ 28 }
    requires pulse_rows { PulseRows rows.now }
    requires p_bound { (p ≤ 16) × (length places.old ≡ 8) }
    ensures placed { Placed r.old.packet.now r.old.state (shell 3 p) (of_symbols 7) places.new r.new.state }
    ensures packet { r.new.packet ≡ r.old.packet }
{
    let left = decode_split_run(r, rows, 2, p);
    for h in 0..2 {
        let c = half_count_run(h, left, p);
        shell_4(r, rows, &mut places[h * 4..h * 4 + 4], c);
    }
}
