// The inverse rows and the spectrum books of SILK, and what is true of all of them: definitions and laws, and for code the
// bounds of the parts that calls lend of the sheet: the header's rows, those of side indices, those of pulses.
#![tactic(auto)]

pub const INDEX_ROWS: usize = 10;

pub const PULSE_ROWS: usize = 566;

pub const SHEET_END: usize = 1475;
