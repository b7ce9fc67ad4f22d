// The numbers of a call on a frame's pulses, and how many blocks they make (document 01, refusals 4 and 6).
#![tactic(auto)]

ghost use Rattle.std.specs.Prelude.{◌≡◌, ◌≤◌};
ghost use Rattle.refusals.specs.Inner.{refusal_of};
ghost use Rattle.silk.specs.FrameCalls.{pulse_numbers_ok, blocks_of, pulse_rule};

use refusals::Refusal;

// What a call that writes pulses is told of its frame.
#[derive(Clone, Copy)]
pub struct CallNumbers {
    pub khz: u32,
    pub subframes: u32,
    pub signal: u32,
    pub offset: u32,
}

// A frame by its blocks of 16 places, and its types.
#[derive(Clone, Copy)]
pub struct FrameNumbers {
    pub blocks: usize,
    pub signal: u32,
    pub offset: u32,
}

#[tactic(auto, unfolding(silk::specs::FrameCalls::pulse_numbers_ok))]
fn numbers_ok(khz: u32, subframes: u32, signal: u32, offset: u32) -> bool
    ensures { result ≡ pulse_numbers_ok khz subframes signal offset }
{
    ((khz == 8) | ((khz == 12) | (khz == 16)))
        & (((subframes == 2) | (subframes == 4)) & ((signal <= 2) & (offset <= 1)))
}

// Blocks of 16 in a frame of 5 x kHz x subframes places.
pub fn blocks_of_run(khz: u32, subframes: u32) -> usize
    requires { (khz ≤ 16) × (subframes ≤ 4) }
    ensures { result ≡ blocks_of khz subframes }
{
    let places = 5 * khz * subframes;
    ((places + 15) / 16) as usize
}

// Refusal 4 or 6.
pub fn pulse_rule(
    n: usize,
    khz: u32,
    subframes: u32,
    signal: u32,
    offset: u32,
) -> Result<(), Refusal>
    ensures { refusal_of result ≡ pulse_rule n khz subframes signal offset }
{
    if numbers_ok(khz, subframes, signal, offset) {
        if n == 16 * blocks_of_run(khz, subframes) {
            Ok(())
        } else {
            Err(Refusal::Length)
        }
    } else {
        Err(Refusal::Number)
    }
}
