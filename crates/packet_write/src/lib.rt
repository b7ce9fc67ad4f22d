// The call that writes a whole packet into a lent buffer (RFC 6716 section 3).
#![tactic(auto)]

ghost use Rattle.std.specs.Prelude.{◌≡◌, length};
ghost use Rattle.std.proofs.lemmas.List.Edits.{sets};
ghost use Rattle.framing.specs.Inner.{Writable};
ghost use Rattle.framing.specs.Writing.{alike, shortest_code, bare as bareOf, packet_of, packet_write};

use framing::PacketWritten;
use packet_pieces::put_whole_run;
use packet_plan::{Plan, plan_run};
use packet_shortest::own_run;

fn write_run(buf: &mut [u8], c: usize, frames: &[u8], sizes: &[u16], p: Plan) -> usize
    requires writable { Writable (length buf.old) c (length frames.now) sizes.now p.length }
    requires same_value { (p.same ≡ alike sizes.now) × (p.code ≡ shortest_code sizes.now) × (p.bare ≡ bareOf sizes.now) }
    ensures { buf.new ≡
        sets buf.old 0 (packet_of c sizes.now frames.now p.length) }
{
    let padding = p.length.saturating_sub(2 + p.bare);
    let code = if p.length == own_run(p.code, p.bare) {
        p.code
    } else {
        3
    };
    let toc = (8 * c + code) as u8;
    put_whole_run(buf, toc, code == 3, padding, !p.same, sizes, frames)
}

// A packet written into a lent buffer, or why it is not.
pub fn packet_write(
    buf: &mut [u8],
    config: u32,
    frames: &[u8],
    sizes: &[u16],
    length: u32,
) -> PacketWritten
    ensures { record { buf = buf.exit.now; answer = result } ≡
        packet_write buf.entry.now config frames.now sizes.now length }
{
    match plan_run(buf.len(), config, frames.len(), sizes, length) {
        Ok(plan) => {
            write_run(buf, config as usize, frames, sizes, plan);
            PacketWritten {
                refusal: 0,
                length: plan.length as u32,
            }
        }
        Err(refusal) => PacketWritten {
            refusal: u32::from(refusal),
            length: 0,
        },
    }
}
