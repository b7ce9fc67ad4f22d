// The range coder's states and answers, laid out for C (RFC 6716, sections 4.1 and 5.1), and what reader and writer
// share: `specs/` says what each step makes of a state. Field by field a state is the crate's `ec_ctx` without its
// buffer: `endoffs` is its end_offs, `window` its end_window, `wbits` its nend_bits, `total` its nbits_total; the
// others have its names.
#![tactic(auto)]

ghost use Rattle.std.specs.Prelude.{◌≡◌, ◌<◌};
ghost use Rattle.entcode.specs.Cuts.{upper};
ghost use Rattle.entcode.specs.Reading.{gives, nought as noughtR, refuses};
ghost use Rattle.entcode.specs.Sound.{gate, window_ok};
ghost use Rattle.entcode.specs.Writing.{nought as noughtW};
ghost use Rattle.refusals.specs.Inner.{number_of, refusal_of};

use refusals::Refusal;

// The longest packet or buffer (document 01).
pub const LONGEST: usize = 1275;

// A reader beside its packet.
#[repr(C)]
#[derive(Clone, Copy, Default, PartialEq, Eq)]
pub struct Dec {
    pub storage: u32,
    pub endoffs: u32,
    pub window: u32,
    pub wbits: u32,
    pub total: u32,
    pub offs: u32,
    pub rng: u32,
    pub val: u32,
    pub ext: u32,
    pub rem: u32,
    pub error: u32,
}

// A writer beside its buffer: held byte -1 for none, error 0 or -1.
#[repr(C)]
#[derive(Clone, Copy, Default, PartialEq, Eq)]
pub struct Enc {
    pub storage: u32,
    pub endoffs: u32,
    pub window: u32,
    pub wbits: u32,
    pub total: u32,
    pub offs: u32,
    pub rng: u32,
    pub val: u32,
    pub ext: u32,
    pub rem: i32,
    pub error: i32,
}

// What a call on a reader answers: the refusal's number or 0, the value, the state.
#[repr(C)]
#[derive(Clone, Copy, PartialEq, Eq)]
pub struct Decoded {
    pub refusal: u32,
    pub value: u32,
    pub state: Dec,
}

// What a call on a writer answers.
#[repr(C)]
#[derive(Clone, Copy, PartialEq, Eq)]
pub struct Encoded {
    pub refusal: u32,
    pub value: u32,
    pub state: Enc,
}

impl Decoded {
    pub fn of(value: u32, state: Dec) -> Decoded
        ensures { result ≡ gives value state }
    {
        Decoded {
            refusal: 0,
            value,
            state,
        }
    }

    pub fn refused(refusal: Refusal, state: Dec) -> Decoded
        ensures { result ≡ refuses (number_of refusal) state }
    {
        Decoded {
            refusal: u32::from(refusal),
            value: 0,
            state,
        }
    }
}

impl Encoded {
    pub fn of(value: u32, state: Enc) -> Encoded
        ensures { result ≡ record { refusal = 0; value = value; state = state } }
    {
        Encoded {
            refusal: 0,
            value,
            state,
        }
    }

    pub fn refused(refusal: Refusal, state: Enc) -> Encoded
        ensures { result ≡ record { refusal = number_of refusal; value = 0; state = state } }
    {
        Encoded {
            refusal: u32::from(refusal),
            value: 0,
            state,
        }
    }
}

// ---- all-zero states: what a refused opening hands back, and what an opened one is made from

pub fn nought_reader() -> Dec
    ensures { result ≡ noughtR }
{
    Dec::default()
}

pub fn nought_writer() -> Enc
    ensures { result ≡ noughtW }
{
    Enc::default()
}

// ---- what both compute alike

// Whether a window holds no more than its bits, of which it has 32 at most. The test is wider, for a full window.
pub fn window_ok(window: u32, wbits: u32) -> bool
    ensures { result ≡ window_ok window wbits }
{
    wbits <= 32 && u64::from(window) < (1u64 << wbits)
}

// What every call checks first (document 01, refusals 1 to 3): the length of its packet or buffer, whether its state is sound for
// that, and the state's total.
pub fn gate(length: usize, sound: bool, total: u32) -> Result<(), Refusal>
    ensures { refusal_of result ≡ gate length sound total }
{
    if length > LONGEST {
        Err(Refusal::TooLong)
    } else if !sound {
        Err(Refusal::Unsound)
    } else if total > 1_000_000 {
        Err(Refusal::Total)
    } else {
        Ok(())
    }
}

// The upper end of part c of ft equal parts of a range.
pub fn part_top_run(rng: u32, c: u32, ft: u32) -> u32
    requires { c < ft }
    ensures { result ≡ upper rng c ft }
{
    if c == 0 { rng } else { rng / ft * (ft - c) }
}
