// Where the writer's bytes go (RFC 6716, sections 5.1.1.1 and 5.1.3): coded bytes, with what a carry may still change
// held back, to the buffer's front, raw bytes to its back. A byte that finds no room is dropped, and the error stays.
// The crate's ec_write_byte is `put_byte`, its ec_write_byte_at_end `put_back`, its ec_enc_carry_out `carry_out_run`.
#![tactic(auto)]

ghost use Rattle.std.specs.Prelude.{◌≡◌, [], ◌∷◌, ◌-◌, ◌^◌, ◌<◌, ◌≤◌, replicate};
ghost use Rattle.entcode.specs.Front.{stored};
ghost use Rattle.entcode.specs.Flat.{out, held_of};
ghost use Rattle.entcode.specs.Inner.Writing.{Roomy, Windowed, Spare, put_all, carried, backed, shed, flushed};

use entcode::Enc;

// ---- the front

// A byte at the front.
fn put_byte(buf: &mut [u8], w: Enc, b: u8) -> Enc
    requires { Roomy (out buf.old w) }
    ensures { out buf.new result ≡ put_all (out buf.old w) (b ∷ []) }
{
    let mut q = w;
    let at = w.offs as usize;
    if w.offs + w.endoffs < w.storage {
        buf[at] = b;
        q.offs = w.offs + 1;
    } else {
        q.error = -1;
    }
    q
}

// The same byte, count times.
fn put_many(buf: &mut [u8], from: Enc, b: u8, count: u32) -> Enc
    requires { Roomy (out buf.old from) }
    ensures { out buf.new result ≡ put_all (out buf.old from) (replicate count b) }
{
    let mut w = from;
    for _ in 0..count {
        w = put_byte(buf, w, b);
    }
    w
}

// The held byte with its carry.
fn put_held(buf: &mut [u8], w: Enc, k: u32) -> Enc
    requires roomy { Roomy (out buf.old w) }
    requires k_bound { k ≤ 1 }
    ensures { out buf.new result ≡ put_all (out buf.old w) (stored (held_of w.rem) k) }
{
    let h = w.rem;
    if 0 <= h {
        let b = ((h as u32) + k) % 256;
        put_byte(buf, w, b as u8)
    } else {
        w
    }
}

// The digit c, a carry and a byte, goes out: 255 joins the run; before any other the held byte and the run are stored
// with its carry.
pub fn carry_out_run(buf: &mut [u8], w: Enc, c: u32) -> Enc
    requires roomy { Roomy (out buf.old w) }
    requires c_bound { (c < 512) × (w.ext < 2 ^ 32 - 1) }
    ensures { out buf.new result ≡ carried (out buf.old w) c }
{
    if c == 255 {
        let mut q = w;
        q.ext = w.ext + 1;
        q
    } else {
        let k = c / 256;
        let a = put_held(buf, w, k);
        let b = (255 + k) % 256;
        let mut z = put_many(buf, a, b as u8, w.ext);
        z.ext = 0;
        z.rem = (c % 256) as i32;
        z
    }
}

// ---- the back

// A byte at the back.
fn put_back(buf: &mut [u8], w: Enc, b: u8) -> Enc
    requires { Roomy (out buf.old w) }
    ensures { out buf.new result ≡ backed (out buf.old w) b }
{
    let mut q = w;
    if w.offs + w.endoffs < w.storage {
        let n = w.endoffs + 1;
        let at = (w.storage - n) as usize;
        buf[at] = b;
        q.endoffs = n;
    } else {
        q.error = -1;
    }
    q
}

// The window's low byte goes to the back.
fn flush_byte(buf: &mut [u8], w: Enc) -> Enc
    requires roomy { Roomy (out buf.old w) }
    requires le_wbits { 8 ≤ w.wbits }
    ensures { out buf.new result ≡ shed (out buf.old w) }
{
    let b = w.window % 256;
    let left = w.wbits - 8;
    let mut q = put_back(buf, w, b as u8);
    q.window = w.window / 256;
    q.wbits = left;
    q
}

// Every whole byte of the window goes to the back.
pub fn flush_all_run(buf: &mut [u8], from: Enc) -> Enc
    requires { Windowed (out buf.old from) }
    ensures { Spare 25 (flushed (out buf.old from)) (out buf.new result) }
{
    let mut w = from;
    while 8 <= w.wbits {
        w = flush_byte(buf, w);
    }
    w
}
