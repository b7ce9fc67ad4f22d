// What a record begins with (docs/RECORDED.md, "Layout"), and one record after the other.
#![tactic(auto)]

ghost use Rattle.std.specs.Prelude.{◌<◌, length, IfSome};
ghost use Rattle.std.specs.Iterator.{at_most};

// How many bytes a record begins with: the number of those behind them, its call, how the call is given.
const HEAD_BYTES: usize = 4;

#[derive(Clone, Copy)]
pub struct Record<'a> {
    pub call: u8,
    pub how: u8,
    pub body: &'a [u8],
}

// A record's bytes end before it does.
#[derive(Clone, Copy, PartialEq, Eq)]
pub struct CutShort;

fn first(file: &[u8]) -> Option<(Record<'_>, &[u8])>
    ensures { IfSome result (λ x. length x.1.now < length file.now) }
{
    let (head, rest) = file.split_at_checked(HEAD_BYTES)?;
    let size = u16::from_le_bytes([head[0], head[1]]);
    let (body, behind) = rest.split_at_checked(usize::from(size))?;
    let record = Record {
        call: head[2],
        how: head[3],
        body,
    };
    Some((record, behind))
}

// The records of a file. One that is cut short is the last.
#[derive(Clone, Copy)]
pub struct Records<'a> {
    pub file: &'a [u8],
}

impl<'a> Iterator for Records<'a> {
    type Item = Result<Record<'a>, CutShort>;

    ghost remaining = { λ s. at_most (length s.file.now) };

    fn next(&mut self) -> Option<Result<Record<'a>, CutShort>> {
        if self.file.is_empty() {
            return None;
        }
        match first(self.file) {
            Some((record, behind)) => {
                self.file = behind;
                Some(Ok(record))
            }
            None => {
                self.file = &[];
                Some(Err(CutShort))
            }
        }
    }
}
