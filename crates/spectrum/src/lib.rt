// Line spectra (RFC 6716, section 4.2.7.5): what the calls take and answer, laid out for C. No function stands here:
// `specs/` says what each call makes of a lent vector.
#![tactic(auto)]

// The spectrum indices of a frame: the first picks a book's vector, the others one residual each.
#[repr(C)]
#[derive(Clone, Copy)]
pub struct Spectrum {
    pub index: [i8; 17],
}

// What a call on a vector answers: the refusal's number or 0, and the number of moves.
#[repr(C)]
#[derive(Clone, Copy, PartialEq, Eq)]
pub struct Moves {
    pub refusal: u32,
    pub moves: u32,
}
