// Which packet is written of some sizes, at which length, or why none is (RFC 6716 section 3): before a byte of it is
// put.
#![tactic(auto)]

ghost use Rattle.std.specs.Prelude.{◌≤◌, ◌≡◌};
ghost use Rattle.framing.specs.Lengths.{total};
ghost use Rattle.packet_plan.specs.Inner.{Planned};

use framing::LONGEST_PACKET;
use packet_shortest::{code_run, own_run, widths_run};
use packet_sizes::{adds_up, alike_run, frames_rule};
use refusals::Refusal;

// The packet's length, whether all sizes are one, the code of the shortest arrangement, and the bytes behind the first
// one or two of a packet without padding.
#[derive(Clone, Copy)]
pub struct Plan {
    pub length: usize,
    pub same: bool,
    pub code: usize,
    pub bare: usize,
}

// Refusal 8, then those of the frames.
fn room_run(len: usize, config: u32, n: usize, sizes: &[u16], length: u32) -> Result<Plan, Refusal>
    requires { (len ≤ 16384) × (n ≡ total sizes.now) }
    ensures { Planned len config n sizes.now length result }
{
    if LONGEST_PACKET < n {
        return Err(Refusal::Value);
    }
    let same = alike_run(sizes);
    let width = widths_run(sizes, same).ok_or(Refusal::Value)?;
    let code = code_run(sizes, same);
    let bare = width + n;
    let shortest = own_run(code, bare);
    let m = if length == 0 {
        shortest
    } else {
        length as usize
    };
    if m < shortest || len < m {
        return Err(Refusal::Value);
    }
    frames_rule(config, sizes)?;
    Ok(Plan {
        length: m,
        same,
        code,
        bare,
    })
}

// Refusals 1 and 6, then the others.
pub fn plan_run(
    len: usize,
    config: u32,
    n: usize,
    sizes: &[u16],
    length: u32,
) -> Result<Plan, Refusal>
    ensures { Planned len config n sizes.now length result }
{
    if LONGEST_PACKET < len {
        Err(Refusal::TooLong)
    } else if adds_up(sizes, n) {
        room_run(len, config, n, sizes, length)
    } else {
        Err(Refusal::Length)
    }
}
