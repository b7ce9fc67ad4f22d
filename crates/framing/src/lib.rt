// Whole Opus packets (RFC 6716 section 3, RFC 8251 section 4): the answers of the calls that read and write them,
// laid out for C. No function stands here: `specs/` has what a packet's bytes mean and how they are laid.
#![tactic(auto)]

// The longest packet that is taken (document 02, item 1).
pub const LONGEST_PACKET: usize = 16384;

// How the frames of a packet are arranged: how many; whether the lengths of all but the last are written; the bytes
// in front (the first one, and the count byte of arrangement 3), the length bytes of the padding, and its bytes at
// the packet's end.
#[derive(Clone, Copy)]
pub struct Form {
    pub count: usize,
    pub varied: bool,
    pub own: usize,
    pub lens: usize,
    pub pad: usize,
}

// What reading a packet answers. Places past `count` are 0.
#[repr(C)]
#[derive(Clone, Copy)]
pub struct Packet {
    pub refusal: u32,
    pub config: u32,
    pub arrangement: u32,
    pub count: u32,
    pub padding: u32,
    pub start: [u16; 12],
    pub size: [u16; 12],
}

// What writing a packet answers.
#[repr(C)]
#[derive(Clone, Copy)]
pub struct PacketWritten {
    pub refusal: u32,
    pub length: u32,
}
