// Which residual row each place of a spectrum reads, by the selectors of its first index (RFC 6716, section
// 4.2.7.5.2), as in the crate's NLSF_unpack.rs: a byte of selectors serves two places.
#![tactic(auto)]

ghost use Rattle.std.specs.Prelude.{◌≡◌, ℕ, ◌/◌, ◌<◌, length};
ghost use Rattle.silk.specs.IndexSyntax.{book_of, selectors_of, residual_pick};

use tables::books::{Book, Narrow, Wide};

// The selectors of vector v, in a row as long for either book: one call then reads or writes the residuals of both,
// and so is inlined. Those of the narrow book end after 5 bytes, which serve its 10 places.
pub fn selectors_run(khz: u32, v: u32) -> [u8; 8]
    requires { v < 32 }
    ensures { (i : ℕ) → i < (book_of khz).order → residual_pick result i ≡ residual_pick (selectors_of khz v) i }
{
    if khz == 16 {
        Wide::selectors_run(v as usize)
    } else {
        let t = Narrow::selectors_run(v as usize);
        [t[0], t[1], t[2], t[3], t[4], 0, 0, 0]
    }
}

// The residual row of place i.
pub fn residual_pick_run(selectors: &[u8], i: usize) -> usize
    requires { i / 2 < length selectors.now }
    ensures { result ≡ residual_pick selectors.now i }
{
    let s = usize::from(selectors[i / 2]);
    if i % 2 == 0 { s / 2 % 8 } else { s / 32 % 8 }
}
