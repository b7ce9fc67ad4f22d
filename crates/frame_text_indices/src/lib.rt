// The lines that list a frame's side indices (document 01), put into a lent buffer at a place. Each function answers
// the place behind what it put.
#![tactic(auto)]

ghost use Rattle.std.specs.Prelude.{◌+◌, ◌≤◌, ◌≡◌, length};
ghost use Rattle.numerals.specs.Inner.{Put};
ghost use Rattle.silk.specs.IndexSyntax.{book_of};
ghost use Rattle.silk.specs.Inner.Indices.{Subframes};
ghost use Rattle.frame_text.specs.FrameText.{gains_text, spectrum_text, indices_text};

use frame_text::widened;
use frame_text_kind::put_kind_run;
use frame_text_pitch::put_pitch_run;
use listing::{put_counted_run, put_line_run};
use silk::Indices;

fn put_gains(out: &mut [u8], at: usize, x: Indices, subframes: u32) -> usize
    requires { (at + 41 ≤ length out.old) × (subframes ≤ 4) }
    ensures { Put 41 out.old at (gains_text subframes x) out.new result }
{
    let gains = widened(x.gains);
    put_counted_run(out, at, b"gains", &gains[..subframes as usize])
}

// The first index and one for each place.
fn indices_of(khz: u32) -> usize
    ensures { (result ≡ (book_of khz).order + 1) × (result ≤ 17) }
{
    if khz == 16 { 17 } else { 11 }
}

fn put_spectrum(out: &mut [u8], at: usize, x: Indices, khz: u32) -> usize
    requires { at + 131 ≤ length out.old }
    ensures { Put 131 out.old at (spectrum_text khz x) out.new result }
{
    let nlsf = widened(x.nlsf);
    put_counted_run(out, at, b"nlsf", &nlsf[..indices_of(khz)])
}

pub fn put_indices_run(out: &mut [u8], at: usize, x: Indices, khz: u32, subframes: u32) -> usize
    requires at_in_bounds { (at + 306 ≤ length out.old) × (khz ≤ 16) }
    requires subframes_value { Subframes subframes }
    ensures { Put 306 out.old at (indices_text khz subframes x) out.new result }
{
    let place = put_kind_run(out, at, x, khz, subframes);
    let place = put_gains(out, place, x, subframes);
    let place = put_spectrum(out, place, x, khz);
    let place = put_line_run(out, place, b"interp", &[i16::from(x.interp)]);
    let place = put_pitch_run(out, place, x, subframes);
    put_line_run(out, place, b"seed", &[i16::from(x.seed)])
}
