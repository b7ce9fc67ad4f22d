// The lines that list a frame's pulses (document 01), put into a lent buffer at a place. Each function answers the
// place behind what it put.
#![tactic(auto)]

ghost use Rattle.std.specs.Prelude.{◌+◌, ◌*◌, ◌≤◌, ◌≡◌, length};
ghost use Rattle.numerals.specs.Inner.{Put};
ghost use Rattle.listing.specs.Lines.{numbers};
ghost use Rattle.frame_text.specs.FrameText.{block_lines, pulses_text};

use listing::{put_line_run, put_numbers_run, put_word_run};
use numerals::{put_byte_run, put_number_run};

// A block of 16.
fn put_block(out: &mut [u8], at: usize, xs: &[i16]) -> usize
    requires { (at + 112 ≤ length out.old) × (length xs.now ≡ 16) }
    ensures { Put 112 out.old at (numbers xs.now) out.new result }
{
    let place = put_number_run(out, at, xs[0]);
    let place = put_numbers_run(out, place, &xs[1..]);
    put_byte_run(out, place, b'\n')
}

fn put_blocks(out: &mut [u8], at: usize, blocks: usize, pulses: &[i16]) -> usize
    requires { (at + 112 * blocks ≤ length out.old) × (16 * blocks ≤ length pulses.now) }
    ensures { Put (112 * blocks) out.old at (block_lines blocks pulses.now) out.new result }
{
    let mut place = at;
    for i in 0..blocks {
        place = put_block(out, place, &pulses[16 * i..16 * i + 16]);
    }
    place
}

pub fn put_pulses_run(out: &mut [u8], at: usize, blocks: usize, pulses: &[i16]) -> usize
    requires { (at + 112 * blocks + 18 ≤ length out.old) × (blocks ≤ 20) × (16 * blocks ≤ length pulses.now) }
    ensures { Put (112 * blocks + 18) out.old at (pulses_text blocks pulses.now) out.new result }
{
    let place = put_line_run(out, at, b"pulses", &[blocks as i16]);
    let place = put_blocks(out, place, blocks, pulses);
    put_word_run(out, place, b"end\n")
}
