// Numbers as decimal text, put into a lent buffer at a place. Each function answers the place behind what it put.
// No struct of buffer and place: each contract would have to say as well that the struct lends the same buffer on.
#![tactic(auto)]

ghost use Rattle.std.specs.Prelude.{◌+◌, ◌≤◌, ◌<◌, [], ◌∷◌, length};
ghost use Rattle.numerals.specs.Decimal.{natural, decimal};
ghost use Rattle.numerals.specs.Inner.{Put};

pub fn put_byte_run(out: &mut [u8], at: usize, byte: u8) -> usize
    requires { at < length out.old }
    ensures { Put 1 out.old at (byte ∷ []) out.new result }
{
    out[at] = byte;
    at + 1
}

// The digits of n / 10, then the last digit: the text's own definition, where a loop would put the last digit first.
fn put_natural(out: &mut [u8], at: usize, n: u16) -> usize
    requires { at + length (natural n) ≤ length out.old }
    ensures { Put (length (natural n)) out.old at (natural n) out.new result }
{
    let last = b'0' + (n % 10) as u8;
    if n < 10 {
        put_byte_run(out, at, last)
    } else {
        let place = put_natural(out, at, n / 10);
        put_byte_run(out, place, last)
    }
}

pub fn put_number_run(out: &mut [u8], at: usize, x: i16) -> usize
    requires { at + 6 ≤ length out.old }
    ensures { Put 6 out.old at (decimal x) out.new result }
{
    let n = x.unsigned_abs();
    if x < 0 {
        let place = put_byte_run(out, at, b'-');
        put_natural(out, place, n)
    } else {
        put_natural(out, at, n)
    }
}
