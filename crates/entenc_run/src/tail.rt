// The writer's raw bits: they wait in a window, and leave it in bytes for the buffer's back (RFC 6716, section 5.1.3).
ghost use Rattle.std.specs.Prelude.{◌≡◌, ◌+◌, ◌^◌, ◌<◌, ◌≤◌};
ghost use Rattle.entcode.specs.Flat.{out};
ghost use Rattle.entcode.specs.Inner.Writing.{Windowed, Core, Spare, Stepped, spared, appended};

use entcode::Enc;
use entenc_bytes::flush_all_run;

// Room in the window for n more bits.
fn spare_for(buf: &mut [u8], w: Enc, n: u32) -> Enc
    requires windowed { Windowed (out buf.old w) }
    requires n_bound { n ≤ 25 }
    ensures { Spare n (spared (out buf.old w) n) (out buf.new result) }
{
    if 32 < w.wbits + n {
        flush_all_run(buf, w)
    } else {
        w
    }
}

// n bits more, of value v.
pub(crate) fn append(buf: &mut [u8], w: Enc, v: u32, n: u32) -> Enc
    requires core { Core (out buf.old w) }
    requires total_bound { w.total ≤ 2 ^ 30 + 16 }
    requires le_n { (1 ≤ n) × (n ≤ 25) × (v < 2 ^ n) }
    ensures { Stepped n (out buf.old w) (appended (out buf.old w) n v) (out buf.new result) }
{
    let a = spare_for(buf, w, n);
    Enc {
        window: a.window.wrapping_add(v << a.wbits),
        wbits: a.wbits + n,
        total: w.total + n,
        ..a
    }
}
