// The bits left over in the window, stowed below the back (RFC 6716, section 5.1.5).
#![tactic(auto)]

ghost use Rattle.std.specs.Prelude.{◌≡◌, ◌≤◌};
ghost use Rattle.entcode.specs.Flat.{out};
ghost use Rattle.entcode.specs.Inner.Writing.{Windowed, stowed};

use entcode::Enc;

// The window's last bits go into the byte below the back; a coded byte there takes no more than its j spare bits.
pub fn stow_run(buf: &mut [u8], w: Enc, j: u32) -> Enc
    requires windowed { Windowed (out buf.old w) }
    requires wbits_bound { (w.wbits ≤ 7) × (j ≤ 7) }
    ensures { out buf.new result ≡ stowed (out buf.old w) j }
{
    let mut q = w;
    let used = w.offs + w.endoffs;
    if w.endoffs < w.storage {
        let n = w.endoffs + 1;
        let at = (w.storage - n) as usize;
        let b = buf[at];
        if (w.storage <= used) & (j < w.wbits) {
            let x = w.window % (1u32 << j);
            buf[at] = b | (x as u8);
            q.error = -1;
        } else {
            buf[at] = b | (w.window as u8);
        }
    } else {
        q.error = -1;
    }
    q
}
