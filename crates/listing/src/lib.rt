// Lines of text, put into a lent buffer at a place. Each function answers the place behind what it put.
#![tactic(auto)]

ghost use Rattle.std.specs.Prelude.{◌+◌, ◌*◌, ◌≤◌, ◌<◌, ◌∷◌, ◌++◌, length};
ghost use Rattle.numerals.specs.Decimal.{decimal};
ghost use Rattle.numerals.specs.Inner.{Put};
ghost use Rattle.listing.specs.Lines.{spaced, line, counted, refused_text};

use numerals::{put_byte_run, put_number_run};

pub fn put_word_run(out: &mut [u8], at: usize, word: &[u8]) -> usize
    requires { at + length word.now ≤ length out.old }
    ensures { Put (length word.now) out.old at word.now out.new result }
{
    // By a copy of the slice the archive for C would ask its linker for `memmove`.
    let mut place = at;
    for byte in word {
        place = put_byte_run(out, place, *byte);
    }
    place
}

// A number after a space.
pub fn put_spaced_run(out: &mut [u8], at: usize, x: i16) -> usize
    requires { at + 7 ≤ length out.old }
    ensures { Put 7 out.old at (32 ∷ decimal x) out.new result }
{
    let place = put_byte_run(out, at, b' ');
    put_number_run(out, place, x)
}

// Numbers, each after a space.
pub fn put_numbers_run(out: &mut [u8], at: usize, xs: &[i16]) -> usize
    requires { at + 7 * length xs.now ≤ length out.old }
    ensures { Put (7 * length xs.now) out.old at (spaced xs.now) out.new result }
{
    let mut place = at;
    for x in xs {
        place = put_spaced_run(out, place, *x);
    }
    place
}

// A word and numbers, no newline.
pub fn put_start_run(out: &mut [u8], at: usize, word: &[u8], xs: &[i16]) -> usize
    requires { at + (length word.now + 7 * length xs.now) ≤ length out.old }
    ensures { Put (length word.now + 7 * length xs.now) out.old at
        (word.now ++ spaced xs.now) out.new result }
{
    let place = put_word_run(out, at, word);
    put_numbers_run(out, place, xs)
}

// A word and numbers.
pub fn put_line_run(out: &mut [u8], at: usize, word: &[u8], xs: &[i16]) -> usize
    requires { at + (length word.now + 7 * length xs.now + 1) ≤ length out.old }
    ensures { Put (length word.now + 7 * length xs.now + 1) out.old at
        (line word.now xs.now) out.new result }
{
    let place = put_start_run(out, at, word, xs);
    put_byte_run(out, place, b'\n')
}

// A word, how many numbers follow, and these.
pub fn put_counted_run(out: &mut [u8], at: usize, word: &[u8], xs: &[i16]) -> usize
    requires xs_in_bounds { at + (length word.now + 7 * length xs.now + 8) ≤ length out.old }
    requires xs_len_bound { length xs.now ≤ 320 }
    ensures { Put (length word.now + 7 * length xs.now + 8) out.old at
        (counted word.now xs.now) out.new result }
{
    let place = put_start_run(out, at, word, &[xs.len() as i16]);
    let place = put_numbers_run(out, place, xs);
    put_byte_run(out, place, b'\n')
}

// All that a refused input prints.
pub fn put_refused_run(out: &mut [u8], at: usize, number: u32) -> usize
    requires { (at + 15 ≤ length out.old) × (number < 32768) }
    ensures { Put 15 out.old at (refused_text number) out.new result }
{
    put_line_run(out, at, b"refused", &[number as i16])
}
