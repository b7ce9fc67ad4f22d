// Whether a packet keeps the rules (RFC 6716 sections 3.2 and 3.4, RFC 8251 section 4).
#![tactic(auto)]

ghost use Rattle.std.specs.Prelude.{◌≤◌, ◌≡◌, length};
ghost use Rattle.framing.specs.Form.{form_of};
ghost use Rattle.packet_form.specs.Inner.{Bounded};
ghost use Rattle.packet_span.specs.Inner.{span_of};

use framing::Form;
use packet_form::firsts_run;
use packet_share::{Span, closed, shared_run};
use packet_time::in_time;
use sections::byte_at;

pub fn span_run(s: &[u8], f: Form) -> Option<Span>
    requires s_len_bound { length s.now ≤ 16384 }
    requires f_value { (f ≡ form_of s.now) × Bounded f }
    ensures { result ≡ span_of s.now }
{
    if f.count == 0 || !in_time(f.count, byte_at(s, 0) / 8) {
        return None;
    }
    let lengths = firsts_run(s, f);
    let head = f.own + f.lens + lengths.width;
    let used = head + f.pad + lengths.value;
    // A checked subtraction leaves a choice of two numbers on the way of one frame, which took a tenth more.
    if s.len() < used {
        return None;
    }
    let room = s.len() - used;
    if f.varied {
        closed(head, room)
    } else {
        shared_run(head, f.count, room)
    }
}
