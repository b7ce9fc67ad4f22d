// A cut of the writer's range, and the digits that leave it (RFC 6716, sections 5.1.1 and 5.1.1.1).
ghost use Rattle.std.specs.Prelude.{◌≡◌, ◌^◌, ◌≤◌};
ghost use Rattle.entcode.specs.Inner.Reading.{CutOk};
ghost use Rattle.entcode.specs.Flat.{out};
ghost use Rattle.entcode.specs.Inner.Writing.{Ready, Core, Stepped, turned, settled, cut};

use entcode::Enc;
use entenc_bytes::carry_out_run;

// One turn: the value's top nine bits go out, and the range grows.
fn turn(buf: &mut [u8], w: Enc) -> Enc
    requires ready { Ready (out buf.old w) }
    requires rng_bound { w.rng ≤ 2 ^ 23 }
    ensures { out buf.new result ≡ turned (out buf.old w) }
{
    let q = carry_out_run(buf, w, w.val / 0x80_0000);
    Enc {
        total: w.total + 8,
        rng: 256 * w.rng,
        val: 256 * (w.val % 0x80_0000),
        ..q
    }
}

// Turns while the range is at most 2^23.
fn normalize(buf: &mut [u8], from: Enc) -> Enc
    requires ready { Ready (out buf.old from) }
    requires le_rng { 256 ≤ from.rng }
    ensures { out buf.new result ≡ settled (out buf.old from) }
{
    let mut w = from;
    while w.rng <= 0x80_0000 {
        w = turn(buf, w);
    }
    w
}

// The part of the range from t down to s, counted from its top, is kept.
pub(crate) fn keep(buf: &mut [u8], w: Enc, t: u32, s: u32) -> Enc
    requires core { Core (out buf.old w) }
    requires total_bound { w.total ≤ 2 ^ 30 }
    requires cut_ok { CutOk w.rng t s }
    ensures { Stepped 16 (out buf.old w) (cut (out buf.old w) t s) (out buf.new result) }
{
    let part = Enc {
        rng: t - s,
        val: w.val.wrapping_add(w.rng - t),
        ..w
    };
    normalize(buf, part)
}
