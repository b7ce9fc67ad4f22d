// The room of a packet's frames, all of it for the last or in equal shares: whether each share is a frame's size (RFC 6716
// sections 3.2 and 3.4).
#![tactic(auto)]

ghost use Rattle.std.specs.Prelude.{◌≤◌, ◌≡◌};
ghost use Rattle.packet_share.specs.Inner.{closed as closedOf, shared as sharedOf};

// The longest frame (rule R2 of section 3.4).
const LONGEST_FRAME: usize = 1275;

// Where the first frame of a packet that keeps the rules starts, and the last frame's size.
#[derive(Clone, Copy)]
pub struct Span {
    pub head: usize,
    pub last: usize,
}

pub fn closed(head: usize, last: usize) -> Option<Span>
    ensures { result ≡ closedOf head last }
{
    if LONGEST_FRAME < last {
        None
    } else {
        Some(Span { head, last })
    }
}

// n equal shares of the room. The first two need no division by a number that is not known.
pub fn shared_run(head: usize, n: usize, room: usize) -> Option<Span>
    requires { 1 ≤ n }
    ensures { result ≡ sharedOf head n room }
{
    if n == 1 {
        return closed(head, room);
    }
    if n == 2 {
        if room % 2 == 0 {
            return closed(head, room / 2);
        }
        return None;
    }
    if room % n == 0 {
        return closed(head, room / n);
    }
    None
}
