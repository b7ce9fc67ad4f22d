// The packet closed (RFC 6716, section 5.1.5): its unused middle cleared, the bits left over stowed.
#![tactic(auto)]

ghost use Rattle.std.specs.Prelude.{◌≡◌, ◌++◌, ◌-◌, ◌≤◌, length, take, drop, replicate};
ghost use Rattle.entcode.specs.Flat.{out};
ghost use Rattle.entcode.specs.Inner.Writing.{Windowed, closed};

use entcode::Enc;
use entenc_finish_stow::stow_run;

// The middle, from first to last, is cleared.
fn clear(buf: &mut [u8], first: usize, last: usize)
    requires { (first ≤ last) × (last ≤ length buf.old) }
    ensures { buf.new ≡ take first buf.old ++ (replicate (last - first) 0 ++ drop last buf.old) }
{
    buf[first..last].fill(0);
}

// While no error stands: the unused middle is cleared, and the window's last bits are stowed.
pub fn close_run(buf: &mut [u8], w: Enc, j: u32) -> Enc
    requires windowed { Windowed (out buf.old w) }
    requires wbits_bound { (w.wbits ≤ 7) × (j ≤ 7) }
    ensures { out buf.new result ≡ closed (out buf.old w) j }
{
    if w.error == 0 {
        let first = w.offs as usize;
        let last = (w.storage - w.endoffs) as usize;
        clear(buf, first, last);
        if 0 < w.wbits { stow_run(buf, w, j) } else { w }
    } else {
        w
    }
}
