// Finishing (RFC 6716, section 5.1.5): the end value's bits, what is held back, the window's bytes, and the bits left over.
#![tactic(auto)]

ghost use Rattle.std.specs.Prelude.{◌≡◌};
ghost use Rattle.entcode.specs.Flat.{out};
ghost use Rattle.entcode.specs.Inner.Writing.{Core};
ghost use Rattle.entcode.specs.Writing.{finished};

use entcode::Enc;
use entenc_bytes::flush_all_run;
use entenc_finish_close::close_run;
use entenc_finish_digits::{end_bits_run, put_digits_run, round_up_run};

// The coded part, the window's bytes, and the bits left over. The window stays in the state as it was.
pub fn ec_enc_done_run(buf: &mut [u8], w: Enc) -> Enc
    requires { Core (out buf.old w) }
    ensures { out buf.new result ≡ finished (out buf.old w) }
{
    let bits = end_bits_run(w.rng, w.val);
    let end = round_up_run(w.val, 31 - bits);
    let digits = (bits + 7) / 8;
    let a = put_digits_run(buf, w, end, digits);
    let b = flush_all_run(buf, a);
    let mut q = close_run(buf, b, 8 * digits - bits);
    q.window = w.window;
    q.wbits = w.wbits;
    q
}
