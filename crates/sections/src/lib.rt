// The numbers of a program's input: bytes, and values of two bytes, high first.
#![tactic(auto)]

ghost use Rattle.std.specs.Prelude.{◌+◌, ◌*◌, ◌≤◌, ◌<◌, ◌≡◌, length};
ghost use Rattle.sections.specs.Values.{byte_at, value_at, values_at};

// The byte at a place, 0 past the end.
pub fn byte_at(s: &[u8], i: usize) -> usize
    ensures { (result ≡ byte_at s.now i) × (result < 256) }
{
    if i < s.len() { usize::from(s[i]) } else { 0 }
}

// The two bytes at a place, as a number with a sign.
pub fn value_at_run(s: &[u8], i: usize) -> i16
    requires { i + 2 ≤ length s.now }
    ensures { result ≡ value_at s.now i }
{
    i16::from_be_bytes([s[i], s[i + 1]])
}

// The values at a place, as many as there is room for.
pub fn fill_run(values: &mut [i16], s: &[u8], at: usize)
    requires { at + 2 * length values.old ≤ length s.now }
    ensures { values.new ≡ values_at s.now at (length values.old) }
{
    for (i, x) in values.iter_mut().enumerate() {
        *x = value_at_run(s, at + 2 * i);
    }
}
