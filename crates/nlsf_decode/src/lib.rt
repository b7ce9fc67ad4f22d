// Decoding of a line spectrum (RFC 6716, section 4.2.7.5): a book's vector moved by residuals, then stabilised. Names
// as in the crate's NLSF_decode.rs.
#![tactic(auto)]

ghost use Rattle.std.specs.Prelude.{◌≡◌, pos, negsuc};
ghost use Rattle.lists.specs.Every.{every};
ghost use Rattle.ranges.specs.InRange.{in_range};
ghost use Rattle.refusals.specs.Inner.{refusal_of};
ghost use Rattle.spectrum.specs.Calls.{book_of, place_indices, numbers_ok, decode_refusal, decoded, decode_call};

use book::spectrum_run;
use ranges::all_in_range;
use refusals::Refusal;
use spectrum::{Moves, Spectrum};
use tables::books::{Narrow, Wide};

mod book; // book.rt: either book

// ---- refusals

fn order_of(khz: u32) -> usize
    ensures { result ≡ (book_of khz).order }
{
    if khz == 16 { 16 } else { 10 }
}

// One index of -10 to 10 for each place. Either order has its own call, whose number of turns is then known to the compiler.
fn places_ok(index: [i8; 17], khz: u32) -> bool
    ensures { result ≡ every (in_range (negsuc 9) (pos 10)) (place_indices (book_of khz).order index) }
{
    if khz == 16 {
        all_in_range(&index[1..17], -10, 10)
    } else {
        all_in_range(&index[1..11], -10, 10)
    }
}

fn numbers_ok(index: [i8; 17], khz: u32) -> bool
    ensures { result ≡ numbers_ok khz index }
{
    let small = places_ok(index, khz);
    let first = index[0];
    let rate = (khz == 8) | ((khz == 12) | (khz == 16));
    rate & (((0 <= first) & (first <= 31)) & small)
}

// The indices' numbers before the vector's length.
fn checked(vector: &[i16], index: [i8; 17], khz: u32) -> Result<(), Refusal>
    ensures { refusal_of result ≡ decode_refusal vector.now index khz }
{
    if !numbers_ok(index, khz) {
        return Err(Refusal::Number);
    }
    if vector.len() != order_of(khz) {
        return Err(Refusal::Length);
    }
    Ok(())
}

// ---- the call

// The spectrum of the indices, stabilised, with the number of moves.
fn decode(vector: &mut [i16], index: [i8; 17], khz: u32) -> u32
    requires { decode_refusal vector.old index khz ≡ 0 }
    ensures { record { vector = vector.exit.now; moves = result } ≡ decoded (book_of khz) index }
{
    let v = index[0] as usize;
    if khz == 16 {
        spectrum_run::<16, 8, 32, 17, Wide>(vector, v, &index[1..17])
    } else {
        spectrum_run::<10, 5, 20, 11, Narrow>(vector, v, &index[1..11])
    }
}

// Decoded and stabilised, with the number of moves; a refusal leaves the vector as it is.
pub fn silk_NLSF_decode(vector: &mut [i16], indices: Spectrum, khz: u32) -> Moves
    ensures { record { vector = vector.exit.now; answer = result } ≡ decode_call vector.entry.now indices khz }
{
    let index = indices.index;
    match checked(vector, index, khz) {
        Ok(()) => Moves {
            refusal: 0,
            moves: decode(vector, index, khz),
        },
        Err(refusal) => Moves {
            refusal: u32::from(refusal),
            moves: 0,
        },
    }
}
