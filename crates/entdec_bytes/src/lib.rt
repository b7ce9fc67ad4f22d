// What a reader takes from its packet (RFC 6716, sections 4.1.1, 4.1.2.1 and 4.1.4): bytes from the front as its
// range shrinks, and bytes from the end through a window. The packet is read in `ec_read_byte` and
// `ec_read_byte_from_end` alone. Names as in the crate's entdec.rs.
#![tactic(auto)]

ghost use Rattle.std.specs.Prelude.{◌≡◌, ◌+◌, ◌-◌, ◌/◌, ◌%◌, ◌^◌, ◌<◌, ◌≤◌, length};
ghost use Rattle.entcode.specs.Reader.{byte_at, last_of, after, shift_r, settled, opened, cut_down};
ghost use Rattle.entcode.specs.Reader.{fetch, fetches, fill, raw_val, drop_bits, raw_next};
ghost use Rattle.entcode.specs.Reading.{gives};
ghost use Rattle.entcode.specs.Inner.Reading.{Core};
ghost use Rattle.entdec_bytes.specs.Inner.{Turning, Windowed};

use entcode::{Dec, Decoded, nought_reader};

// The byte at a place, 0 past the end.
fn ec_read_byte(packet: &[u8], at: u32) -> u32
    ensures { result ≡ byte_at packet.now at }
{
    match packet.get(at as usize) {
        Some(b) => u32::from(*b),
        None => 0,
    }
}

// The byte at a place counted from the end, 0 past the start.
fn ec_read_byte_from_end(packet: &[u8], at: u32) -> u32
    ensures { result ≡ last_of packet.now (length packet.now - at) }
{
    let i = at as usize;
    if i < packet.len() {
        u32::from(packet[packet.len() - (i + 1)])
    } else {
        0
    }
}

// The place after one more byte.
fn place_after(packet: &[u8], at: u32) -> u32
    requires { (length packet.now ≤ 1275) × (at ≤ length packet.now) }
    ensures { result ≡ after packet.now at }
{
    if (at as usize) < packet.len() {
        at + 1
    } else {
        at
    }
}

// ---- from the front

// One turn of renormalising: 8 more bits.
fn turn(packet: &[u8], d: Dec) -> Dec
    requires turning { Turning packet.now d }
    requires rng_bound { d.rng ≤ 2 ^ 23 }
    ensures { result ≡ shift_r packet.now d }
{
    let b = ec_read_byte(packet, d.offs);
    let sym = (256 * d.rem + b) / 2 % 256;
    let val = (256 * d.val).wrapping_add(255 - sym);
    Dec {
        total: d.total + 8,
        offs: place_after(packet, d.offs),
        rng: 256 * d.rng,
        val: val % 0x8000_0000,
        rem: b,
        ..d
    }
}

fn ec_dec_normalize(packet: &[u8], from: Dec) -> Dec
    requires { Turning packet.now from }
    ensures { result ≡ settled packet.now from }
{
    let mut d = from;
    while d.rng <= 0x80_0000 {
        d = turn(packet, d);
    }
    d
}

// A reader at the packet's start.
pub fn ec_dec_init_run(packet: &[u8]) -> Dec
    requires { length packet.now ≤ 1275 }
    ensures { result ≡ opened packet.now }
{
    let b = ec_read_byte(packet, 0);
    let d = Dec {
        storage: packet.len() as u32,
        total: 9,
        offs: place_after(packet, 0),
        rng: 128,
        val: 127 - b / 2,
        rem: b,
        ..nought_reader()
    };
    ec_dec_normalize(packet, d)
}

// The part of the range from t down to s, counted from its top, is kept: it holds the value.
pub fn cut_run(packet: &[u8], d: Dec, t: u32, s: u32) -> Dec
    requires core { Core packet.now d }
    requires total_bound { d.total ≤ 2 ^ 30 }
    requires s_bound { (s + 256 ≤ t) × (t ≤ d.rng) × (s ≤ d.val) × (d.val < t) }
    ensures { result ≡ cut_down packet.now d t s }
{
    let part = Dec {
        rng: t - s,
        val: d.val - s,
        ..d
    };
    ec_dec_normalize(packet, part)
}

// ---- from the end

// A byte more in the window.
fn fetch_byte(packet: &[u8], d: Dec) -> Dec
    requires windowed { Windowed packet.now d }
    requires wbits_bound { d.wbits ≤ 24 }
    ensures { result ≡ fetch packet.now d }
{
    let b = ec_read_byte_from_end(packet, d.endoffs);
    Dec {
        endoffs: place_after(packet, d.endoffs),
        window: d.window.wrapping_add(b << d.wbits),
        wbits: d.wbits + 8,
        ..d
    }
}

// Bytes while one more fits the window.
fn fill_up(packet: &[u8], from: Dec) -> Dec
    requires { Windowed packet.now from }
    ensures { result ≡ fetches packet.now ((32 - from.wbits) / 8) from }
{
    let mut d = from;
    while d.wbits <= 24 {
        d = fetch_byte(packet, d);
    }
    d
}

// n bits in the window.
fn fill_for(packet: &[u8], d: Dec, n: u32) -> Dec
    requires { Windowed packet.now d }
    ensures { result ≡ fill packet.now n d }
{
    if d.wbits < n { fill_up(packet, d) } else { d }
}

// n bits off the window's low end.
fn draw(d: Dec, n: u32) -> Decoded
    requires { (n ≤ 25) × (n ≤ d.wbits) × (d.total ≤ 2 ^ 31) }
    ensures { result ≡ gives (d.window % 2 ^ n) (drop_bits n d) }
{
    let value = d.window & ((1u32 << n) - 1);
    let state = Dec {
        window: d.window >> n,
        wbits: d.wbits - n,
        total: d.total + n,
        ..d
    };
    Decoded::of(value, state)
}

// The next n raw bits, none too.
pub fn raw_bits_run(packet: &[u8], d: Dec, n: u32) -> Decoded
    requires core { Core packet.now d }
    requires total_bound { d.total ≤ 2 ^ 31 }
    requires n_bound { n ≤ 25 }
    ensures { result ≡ gives (raw_val packet.now n d) (raw_next packet.now n d) }
{
    draw(fill_for(packet, d, n), n)
}
