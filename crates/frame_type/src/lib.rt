// The types of a packet's first frame (RFC 6716, section 4.2.7.3), for a host that wants to know them before it
// decodes: read through a packet view that is opened here and not kept.
#![tactic(auto)]

ghost use Rattle.std.specs.Prelude.{◌≡◌, cond, leb};
ghost use Rattle.entcode.specs.Reading.{dec_open};
ghost use Rattle.frame_type.specs.Kind.{type_rule, frame_type};
ghost use Rattle.refusals.specs.Inner.{refusal_of};

use refusals::Refusal;
use tables::rows::index_rows;

// Refusal, or signal type 0 to 2 and offset type 0 or 1.
#[repr(C)]
#[derive(Clone, Copy)]
pub struct FrameType {
    pub refusal: u32,
    pub signal: u32,
    pub offset: u32,
}

// ---- refusals

#[tactic(auto, unfolding(entcode::specs::Reading::dec_open))]
fn length_rule(packet: &[u8]) -> Result<(), Refusal>
    ensures { refusal_of result ≡ (dec_open packet.now).refusal }
{
    if packet.len() <= entcode::LONGEST {
        Ok(())
    } else {
        Err(Refusal::TooLong)
    }
}

fn active_rule(active: u32) -> Result<(), Refusal>
    ensures { refusal_of result ≡ cond (leb active 1) 0 4 }
{
    if active <= 1 {
        Ok(())
    } else {
        Err(Refusal::Number)
    }
}

fn type_rule(packet: &[u8], active: u32) -> Result<(), Refusal>
    ensures { refusal_of result ≡ type_rule packet.now active }
{
    length_rule(packet).and(active_rule(active))
}

// ---- the call

pub fn frame_type(packet: &[u8], active: u32) -> FrameType
    ensures { result ≡ frame_type packet.now active }
{
    match type_rule(packet, active) {
        Ok(()) => {
            let base = active * 2;
            let start = base as usize;
            let end = start + (2 + start);
            let rows = index_rows();
            let a = packet_view::first_symbol(packet, &rows[start..end], 8);
            let kind = a.value + base;
            FrameType {
                refusal: 0,
                signal: kind / 2,
                offset: kind % 2,
            }
        }
        Err(refusal) => FrameType {
            refusal: u32::from(refusal),
            signal: 0,
            offset: 0,
        },
    }
}
