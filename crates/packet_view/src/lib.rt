// A packet held with the place reached (document 01): the lent slice and the reader's state in one struct, and thin
// readers over it. Each takes the view apart, calls the reader by value of the room `entdec`, and hands the packet on
// with the answer.
#![tactic(auto)]

ghost use Rattle.std.specs.Prelude.{◌≡◌};
ghost use Rattle.entcode.specs.Models.{bit as a-bit, raw, num, tab};
ghost use Rattle.packet_view.specs.View.{view_open, view_tell, view_sym, view_at};

use entcode::{Dec, Decoded};

#[derive(Clone, Copy)]
pub struct PacketView<'a> {
    pub packet: &'a [u8],
    pub reader: Dec,
}

// A call's answer, and the packet that it was read from.
#[derive(Clone, Copy)]
pub struct PacketRead<'a> {
    pub packet: &'a [u8],
    pub read: Decoded,
}

// ---- from a packet to a view

// A reader at the packet's start.
pub fn open<'a>(packet: &'a [u8]) -> PacketRead<'a>
    ensures { result ≡ view_open packet.entry }
{
    let read = entdec::ec_dec_init(packet);
    PacketRead { packet, read }
}

// The view at the place that a call reached.
pub fn reached<'a>(answer: PacketRead<'a>) -> PacketView<'a>
    ensures { result ≡ view_at answer.entry }
{
    PacketView {
        packet: answer.packet,
        reader: answer.read.state,
    }
}

// ---- the readers

// The bits taken so far, less those that the range still holds.
pub fn account<'a>(view: PacketView<'a>) -> PacketRead<'a>
    ensures { result ≡ view_tell view.entry }
{
    let packet = view.packet;
    let read = entdec::ec_tell(packet, view.reader);
    PacketRead { packet, read }
}

// A bit that is 1 with probability 1 / 2^exponent.
pub fn bit<'a>(view: PacketView<'a>, exponent: u32) -> PacketRead<'a>
    ensures { result ≡ view_sym view.entry (a-bit exponent) }
{
    let packet = view.packet;
    let read = entdec::ec_dec_bit_logp(packet, view.reader, exponent);
    PacketRead { packet, read }
}

// A number below total.
pub fn number<'a>(view: PacketView<'a>, total: u32) -> PacketRead<'a>
    ensures { result ≡ view_sym view.entry (num total) }
{
    let packet = view.packet;
    let read = entdec::ec_dec_uint(packet, view.reader, total);
    PacketRead { packet, read }
}

// Raw bits, from the packet's end.
pub fn raw_bits<'a>(view: PacketView<'a>, bits: u32) -> PacketRead<'a>
    ensures { result ≡ view_sym view.entry (raw bits) }
{
    let packet = view.packet;
    let read = entdec::ec_dec_bits(packet, view.reader, bits);
    PacketRead { packet, read }
}

// A symbol of an inverse table.
pub fn symbol<'a>(view: PacketView<'a>, table: &[u8], scale: u32) -> PacketRead<'a>
    ensures { result ≡ view_sym view.entry (tab scale table.now) }
{
    let packet = view.packet;
    let read = entdec::ec_dec_icdf_of_view(packet, view.reader, table, scale);
    PacketRead { packet, read }
}

// ---- for callers that hold no view

// The first symbol of a packet.
pub fn first_symbol(packet: &[u8], table: &[u8], scale: u32) -> Decoded
    ensures { result ≡ (view_sym (view_at (view_open packet.entry)) (tab scale table.now)).read }
{
    let answer = symbol(reached(open(packet)), table, scale);
    answer.read
}
