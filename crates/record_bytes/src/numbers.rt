// Numbers of a record by their bytes, low byte first (docs/RECORDED.md, "Layout").
ghost use Rattle.std.specs.Prelude.{◌≡◌, ◌+◌, ◌<◌, length, take, drop, IfSome, MatchOption};
ghost use Rattle.std.specs.Int.{w8, w16, w32, from_le_bytes, cast_signed};
ghost use Rattle.record_bytes.specs.Inner.{ReadOff};

// The bytes of a record that are not read yet. Each call reads a number off their front, or none where they are too few.
#[derive(Clone, Copy)]
pub struct Unread<'a> {
    pub left: &'a [u8],
}

impl<'a> Unread<'a> {
    fn taken<const N: usize>(&mut self) -> Option<[u8; N]>
        ensures { ReadOff N (λ bytes. bytes) self.old.left.now self.new.left.now result }
    {
        let (front, rest) = self.left.split_first_chunk()?;
        self.left = rest;
        Some(*front)
    }

    pub fn bytes(&mut self, count: usize) -> Option<&'a [u8]>
        ensures front { IfSome result (λ x. x.now ≡ take count self.old.left.now) }
        ensures rest { MatchOption result (length self.old.left.now < count) (λ _. self.new.left.now ≡ drop count self.old.left.now) }
        ensures left { IfSome result (λ _. length self.new.left.now + count ≡ length self.old.left.now) }
    {
        let (front, rest) = self.left.split_at_checked(count)?;
        self.left = rest;
        Some(front)
    }

    pub fn word(&mut self) -> Option<u32>
        ensures { ReadOff 4 (from_le_bytes w32) self.old.left.now self.new.left.now result }
    {
        Some(u32::from_le_bytes(self.taken()?))
    }

    // ---- with a sign, by their bits

    pub fn small(&mut self) -> Option<i8>
        ensures { ReadOff 1 (λ bytes. cast_signed w8 (from_le_bytes w8 bytes)) self.old.left.now self.new.left.now result }
    {
        Some(i8::from_le_bytes(self.taken()?))
    }

    pub fn smalls<const N: usize>(&mut self) -> Option<[i8; N]>
        ensures { MatchOption result (length self.old.left.now < N) (λ _. length self.new.left.now + N ≡ length self.old.left.now) }
    {
        let mut values = [0; N];
        for (value, byte) in values.iter_mut().zip(self.bytes(N)?) {
            *value = byte.cast_signed();
        }
        Some(values)
    }

    pub fn value(&mut self) -> Option<i16>
        ensures { ReadOff 2 (λ bytes. cast_signed w16 (from_le_bytes w16 bytes)) self.old.left.now self.new.left.now result }
    {
        Some(i16::from_le_bytes(self.taken()?))
    }

    pub fn signed(&mut self) -> Option<i32>
        ensures { ReadOff 4 (λ bytes. cast_signed w32 (from_le_bytes w32 bytes)) self.old.left.now self.new.left.now result }
    {
        Some(i32::from_le_bytes(self.taken()?))
    }
}

// The values that the bytes hold, as many as there is room for.
pub fn fill(values: &mut [i16], bytes: &[u8])
    ensures { length values.new ≡ length values.old }
{
    let (pairs, _) = bytes.as_chunks();
    for (value, pair) in values.iter_mut().zip(pairs) {
        *value = i16::from_le_bytes(*pair);
    }
}
