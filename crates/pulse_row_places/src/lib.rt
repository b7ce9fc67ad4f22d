// Where the rows that a block's pulses are coded by stand in the pulses' rows (RFC 6716, section 4.2.7.8): of its
// count behind low bits, of its splits, of its signs. Reader and writer take them from here.
#![tactic(auto)]

ghost use Rattle.std.specs.Prelude.{◌≡◌, cond, ◌+◌, ◌*◌, ◌<◌, ◌≤◌, min, eqb};
ghost use mathlib.Core.List.{flatten};
ghost use Rattle.sheet.specs.Rows.{pulse_rows};
ghost use Rattle.sheet.specs.Inner.{Stands};

use sheet::PULSE_ROWS;

// ---- where rows start and end: by the sheet's directory (docs/TABLES.md), less where the part begins that is lent

// Ten rows of 18 entries, by rate level.
pub const COUNT: usize = 584 - PULSE_ROWS;

pub const COUNT_END: usize = 764 - PULSE_ROWS;

// The last of them, whole and without its first entry.
const COUNT_9: usize = 746 - PULSE_ROWS;

const COUNT_9_REST: usize = 747 - PULSE_ROWS;

// The splits of n pulses start n (n + 1) / 2 behind here, and those of each table 152 behind the one before.
const SHELLS: usize = 780 - PULSE_ROWS;

pub const LOW_BIT: usize = 1389 - PULSE_ROWS;

pub const LOW_BIT_END: usize = 1391 - PULSE_ROWS;

// 42 rows of 2.
const SIGN: usize = 1391 - PULSE_ROWS;

// ---- rows of a block

// Where row 9 is entered after j low bits: after ten, one place later.
pub fn later_at(j: u32) -> usize
    ensures { result ≡ cond (eqb j 10) 181 180 }
{
    if j == 10 { COUNT_9_REST } else { COUNT_9 }
}

// Where the row of n pulses starts: one of table 0 splits 2 places, of table 3 splits 16. No pulses have no row.
pub fn split_start_run(table: usize, n: usize) -> usize
    requires { (table < 4) × (n ≤ 16) }
    ensures { 1 ≤ n → Stands (58 + table * 16 + n) (flatten pulse_rows) result (n + 1) }
{
    SHELLS + table * 152 + n * (n + 1) / 2
}

// Where the sign row of a block with c pulses before low bits stands.
pub fn sign_row_at_run(signal: u32, offset: u32, c: u8) -> usize
    requires { (signal ≤ 2) × (offset ≤ 1) }
    ensures { result ≡ 825 + (7 * (offset + 2 * signal) + min c 6) * 2 }
{
    let row = 7 * (offset + 2 * signal) + u32::from(c.min(6));
    SIGN + (row as usize) * 2
}
