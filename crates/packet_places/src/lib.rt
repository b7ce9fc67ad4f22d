// Start and size of each frame of a packet that keeps the rules (RFC 6716 section 3.2).
#![tactic(auto)]

ghost use Rattle.std.specs.Prelude.{◌+◌, ◌≤◌, ◌≡◌, [], ◌∷◌, ◌++◌, length, drop};
ghost use Rattle.framing.specs.Lengths.{lengths, widths};
ghost use Rattle.framing.specs.Form.{sizes};
ghost use Rattle.packet_places.specs.Inner.{Spanned, Stands};

use framing::Form;
use packet_next::next_run;
use packet_share::Span;

// Start and size of each frame. Places past the last are 0. Two arrays, as the C interface's `Packet` has them.
#[derive(Clone, Copy)]
pub struct Places {
    pub start: [u16; 12],
    pub size: [u16; 12],
}

// Up to four frames. Each turn's places are constants, so that no array is filled and copied, which would take twice
// the time.
pub fn few_run(s: &[u8], f: Form, span: Span) -> Places
    requires { Spanned s.now f span.head span.last × (f.count ≤ 4) }
    ensures { Stands (sizes f s.now) span.head result }
{
    let mut p = Places {
        start: [0; 12],
        size: [0; 12],
    };
    let mut at = f.own + f.lens;
    let mut place = span.head;
    for k in 0..4 {
        if f.count <= k {
            return p;
        }
        let next = next_run(s, f, span.last, at, k);
        p.start[k] = place as u16;
        p.size[k] = next.value as u16;
        at += next.width;
        place += next.value;
    }
    p
}

// Any number of frames. One function with `few_run` by a const parameter is unrolled for twelve too, and reading one frame
// then took twice the time.
fn each_run(s: &[u8], f: Form, span: Span) -> Places
    requires { Spanned s.now f span.head span.last × (f.count ≤ 12) }
    ensures { Stands (sizes f s.now) span.head result }
{
    let mut p = Places {
        start: [0; 12],
        size: [0; 12],
    };
    let mut at = f.own + f.lens;
    let mut place = span.head;
    for k in 0..f.count {
        let next = next_run(s, f, span.last, at, k);
        p.start[k] = place as u16;
        p.size[k] = next.value as u16;
        at += next.width;
        place += next.value;
    }
    p
}

// Frames whose written lengths are one byte each, as those of speech are: no length waits for the one before.
fn bytes_run(s: &[u8], at: usize, n: usize, span: Span) -> Places
    requires { (at + n ≤ length s.now) × (n ≤ 11) × (span.head ≤ 16384) × (span.last ≤ 1275) × (widths n (drop at s.now) ≡ n) }
    ensures { Stands (lengths n (drop at s.now) ++ (span.last ∷ [])) span.head result }
{
    let mut start = [0; 12];
    let mut size = [0; 12];
    let mut place = span.head;
    for k in 0..12 {
        start[k] = place as u16;
        if n <= k {
            size[k] = span.last as u16;
            return Places { start, size };
        }
        let length = s[at + k];
        size[k] = u16::from(length);
        place += usize::from(length);
    }
    Places { start, size }
}

pub fn many_run(s: &[u8], f: Form, span: Span) -> Places
    requires { Spanned s.now f span.head span.last × (f.count ≤ 12) }
    ensures { Stands (sizes f s.now) span.head result }
{
    if f.varied && span.head == f.own + f.lens + (f.count - 1) {
        bytes_run(s, f.own + f.lens, f.count - 1, span)
    } else {
        each_run(s, f, span)
    }
}
