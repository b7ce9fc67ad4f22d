// The rules of a sound reader, all but the window's (document 01): `specs/Sound` of `entcode` has the list.
#![tactic(auto)]

ghost use Rattle.std.specs.Prelude.{◌≡◌};
ghost use Rattle.entcode.specs.Sound.{total_ok, range_ok_r, places_ok_r, small_ok_r};

use entcode::Dec;

pub fn range_ok(d: Dec) -> bool
    ensures { result ≡ range_ok_r d }
{
    (0x80_0000 < d.rng) & ((d.rng <= 0x8000_0000) & (d.val < d.rng))
}

pub fn places_ok(packet: &[u8], d: Dec) -> bool
    ensures { result ≡ places_ok_r packet.now d }
{
    (d.storage as usize == packet.len())
        & ((d.offs as usize <= packet.len()) & (d.endoffs as usize <= packet.len()))
}

pub fn small_ok(d: Dec) -> bool
    ensures { result ≡ small_ok_r d }
{
    (d.rem <= 255) & (d.error <= 1)
}

pub fn total_ok(d: Dec) -> bool
    ensures { result ≡ total_ok d.total }
{
    (33 <= d.total) & (d.total <= 1_100_000)
}
