// The call that reads a whole packet (RFC 6716 section 3, RFC 8251 section 4): what the packet holds, or why it is
// refused.
#![tactic(auto)]

ghost use Rattle.std.specs.Prelude.{◌≤◌, ◌<◌, ◌≡◌, get_or};
ghost use Rattle.refusals.specs.Inner.{number_of};
ghost use Rattle.framing.specs.Reading.{refused as refusedOf, accepted as acceptedOf, packet_read};
ghost use Rattle.packet_form.specs.Inner.{Bounded};
ghost use Rattle.packet_places.specs.Inner.{Spanned};
ghost use Rattle.packet_read.specs.Inner.{answer_of};

use framing::{Form, LONGEST_PACKET, Packet};
use packet_form::form_run;
use packet_places::{Places, few_run, many_run};
use packet_share::Span;
use packet_span::span_run;
use refusals::Refusal;
use sections::byte_at;

fn refused(refusal: Refusal) -> Packet
    ensures { result ≡ refusedOf (number_of refusal) }
{
    Packet {
        refusal: u32::from(refusal),
        config: 0,
        arrangement: 0,
        count: 0,
        padding: 0,
        start: [0; 12],
        size: [0; 12],
    }
}

fn answer_run(f: Form, toc: usize, p: Places) -> Packet
    requires { Bounded f × (toc < 256) }
    ensures { result ≡ answer_of f toc p }
{
    let Places { start, size } = p;
    Packet {
        refusal: 0,
        config: (toc / 8) as u32,
        arrangement: (toc % 4) as u32,
        count: f.count as u32,
        padding: (f.lens + f.pad) as u32,
        start,
        size,
    }
}

fn accepted_run(s: &[u8], f: Form, span: Span, toc: usize) -> Packet
    requires { Spanned s.now f span.head span.last × (f.count ≤ 12) × (toc ≡ get_or s.now 0 0) × (toc < 256) }
    ensures { result ≡ acceptedOf s.now }
{
    if f.count <= 4 {
        answer_run(f, toc, few_run(s, f, span))
    } else {
        answer_run(f, toc, many_run(s, f, span))
    }
}

// What a packet holds, or why it is refused.
pub fn packet_read(packet: &[u8]) -> Packet
    ensures { result ≡ packet_read packet.now }
{
    if LONGEST_PACKET < packet.len() {
        return refused(Refusal::TooLong);
    }
    let form = form_run(packet);
    let Some(span) = span_run(packet, form) else {
        return refused(Refusal::Framing);
    };
    let toc = byte_at(packet, 0);
    if 11 < toc / 8 || toc / 4 % 2 == 1 {
        return refused(Refusal::NotSpeech);
    }
    accepted_run(packet, form, span, toc)
}
