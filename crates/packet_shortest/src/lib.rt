// The shortest packet of some sizes: its arrangement, the bytes of its lengths, and its own length (RFC 6716 section
// 3.2).
#![tactic(auto)]

ghost use Rattle.std.specs.Prelude.{◌+◌, ◌-◌, ◌≤◌, ◌≡◌, cond, ltb, length, IfSome};
ghost use Rattle.framing.specs.Lengths.{length_code};
ghost use Rattle.framing.specs.Writing.{alike, shortest_code};
ghost use Rattle.packet_shortest.specs.Inner.{codes_of, Width, told};

use framing::LONGEST_PACKET;

// Bytes of one length.
#[tactic(auto, unfolding(framing::specs::Lengths::length_code))]
fn bytes_of(size: u16) -> usize
    ensures { (result ≡ length (length_code size)) × (result ≤ 2) }
{
    if size < 252 { 1 } else { 2 }
}

// Bytes of all lengths but the last one's.
fn width_run(sizes: &[u16]) -> usize
    requires { (1 ≤ length sizes.now) × (length sizes.now ≤ 16384) }
    ensures { (result ≡ length (codes_of sizes.now (length sizes.now - 1))) × (result ≤ 40000) }
{
    let mut width = 0;
    for size in &sizes[..sizes.len() - 1] {
        width += bytes_of(*size);
    }
    width
}

// Bytes of the written lengths, 0 where the sizes are alike; None where they are more than a packet's.
pub fn widths_run(sizes: &[u16], same: bool) -> Option<usize>
    requires { same ≡ alike sizes.now }
    ensures told { Width sizes.now (told result) }
    ensures some { IfSome result (λ w. w ≤ 40000) }
{
    if same {
        Some(0)
    } else if LONGEST_PACKET < sizes.len() {
        None
    } else {
        Some(width_run(sizes))
    }
}

// The code of the shortest arrangement: a number, as it stands in the first byte's two bits and in the C interface's
// `arrangement`.
pub fn code_run(sizes: &[u16], same: bool) -> usize
    requires { same ≡ alike sizes.now }
    ensures { result ≡ shortest_code sizes.now }
{
    match sizes.len() {
        1 => 0,
        2 if same => 1,
        2 => 2,
        _ => 3,
    }
}

// The first byte, or it and the count byte, before all else.
pub fn own_run(code: usize, bare: usize) -> usize
    requires { bare ≤ 100000 }
    ensures { result ≡ cond (ltb code 3) 1 2 + bare }
{
    if code < 3 { 1 + bare } else { 2 + bare }
}
