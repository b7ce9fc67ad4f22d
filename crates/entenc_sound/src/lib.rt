// The rules of a sound writer, all but the window's (document 01): `specs/Sound` of `entcode` has the list.
#![tactic(auto)]

ghost use Rattle.std.specs.Prelude.{◌≡◌, ◌&&◌};
ghost use Rattle.entcode.specs.Sound.{range_ok_w, places_ok_w, signs_ok_w, run_ok_w, total_ok};

use entcode::Enc;

pub fn range_ok(w: Enc) -> bool
    ensures { result ≡ range_ok_w w }
{
    let top = (w.val as u64) + (w.rng as u64);
    (0x80_0000 < w.rng) & ((w.rng <= 0x8000_0000) & (top < 0x1_0000_0000))
}

pub fn places_ok(buf: &[u8], w: Enc) -> bool
    ensures { result ≡ places_ok_w buf.now w }
{
    let both = (w.offs as usize) + (w.endoffs as usize);
    (w.storage as usize == buf.len()) & (both <= buf.len())
}

pub fn signs_ok(w: Enc) -> bool
    ensures { result ≡ signs_ok_w w }
{
    (-1 <= w.rem) & ((w.rem <= 255) & ((-1 <= w.error) & (w.error <= 0)))
}

pub fn counts_ok(w: Enc) -> bool
    ensures { result ≡ run_ok_w w && total_ok w.total }
{
    (w.ext <= 150_000) & ((33 <= w.total) & (w.total <= 1_100_000))
}
