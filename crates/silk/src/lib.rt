// The side-index record of a SILK frame and the answers of the frame calls, laid out for C (RFC 6716, section 4.2.7).
// No function stands here: `specs/` has the frame's syntax, for its reader and its writer.
#![tactic(auto)]

use entcode::{Dec, Enc};

// Side indices: the crate's SideInfoIndices, in the order of the C interface. Its kinds, and those of a setting, stay
// numbers: the C interface has them as such, and the definitions (`indices`, `setting_ok`) are over these numbers.
#[repr(C)]
#[derive(Clone, Copy, PartialEq, Eq)]
pub struct Indices {
    pub gains: [i8; 4],
    pub ltp: [i8; 4],
    pub nlsf: [i8; 17],
    pub lag: i16,
    pub contour: i8,
    pub signal: i8,
    pub offset: i8,
    pub interp: i8,
    pub period: i8,
    pub scale: i8,
    pub seed: i8,
}

// The setting of a frame: kHz 8, 12 or 16; 2 or 4 subframes; active 0 or 1; mode 0 independent, 1 independent without
// LTP scaling, 2 conditional; signal type and lag of the frame before.
#[derive(Clone, Copy)]
pub struct Setting {
    pub khz: u32,
    pub subframes: u32,
    pub active: u32,
    pub mode: u32,
    pub prevtype: u32,
    pub prevlag: i16,
}

// What reading side indices answers.
#[repr(C)]
#[derive(Clone, Copy)]
pub struct IndicesRead {
    pub refusal: u32,
    pub state: Dec,
    pub indices: Indices,
    pub prevtype: u32,
    pub prevlag: i16,
}

// What writing side indices answers.
#[repr(C)]
#[derive(Clone, Copy)]
pub struct IndicesWritten {
    pub refusal: u32,
    pub state: Enc,
    pub prevtype: u32,
    pub prevlag: i16,
}
