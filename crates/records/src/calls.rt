// The recorded calls by their numbers (docs/RECORDED.md, "Layout"): each program counts its own from 1.

// The number of none of the program's calls.
#[derive(Clone, Copy, PartialEq, Eq)]
pub struct Unknown;

// On a reader, which has no call that finishes, and on a writer.
#[derive(Clone, Copy, PartialEq, Eq)]
pub enum CoderCall {
    Open,
    Account,
    Bit,
    Table,
    Number,
    Bits,
    Finish,
}

impl TryFrom<u8> for CoderCall {
    type Error = Unknown;

    fn try_from(number: u8) -> Result<CoderCall, Unknown> {
        match number {
            1 => Ok(CoderCall::Open),
            2 => Ok(CoderCall::Account),
            3 => Ok(CoderCall::Bit),
            4 => Ok(CoderCall::Table),
            5 => Ok(CoderCall::Number),
            6 => Ok(CoderCall::Bits),
            7 => Ok(CoderCall::Finish),
            _ => Err(Unknown),
        }
    }
}

#[derive(Clone, Copy, PartialEq, Eq)]
pub enum FrameCall {
    ReadIndices,
    ReadPulses,
    WriteIndices,
    WritePulses,
}

impl TryFrom<u8> for FrameCall {
    type Error = Unknown;

    fn try_from(number: u8) -> Result<FrameCall, Unknown> {
        match number {
            1 => Ok(FrameCall::ReadIndices),
            2 => Ok(FrameCall::ReadPulses),
            3 => Ok(FrameCall::WriteIndices),
            4 => Ok(FrameCall::WritePulses),
            _ => Err(Unknown),
        }
    }
}

#[derive(Clone, Copy, PartialEq, Eq)]
pub enum SpectraCall {
    Decode,
    Stabilise,
}

impl TryFrom<u8> for SpectraCall {
    type Error = Unknown;

    fn try_from(number: u8) -> Result<SpectraCall, Unknown> {
        match number {
            1 => Ok(SpectraCall::Decode),
            2 => Ok(SpectraCall::Stabilise),
            _ => Err(Unknown),
        }
    }
}

#[derive(Clone, Copy, PartialEq, Eq)]
pub enum ProgramCall {
    FrameLister,
    NlsfStabiliser,
}

impl TryFrom<u8> for ProgramCall {
    type Error = Unknown;

    fn try_from(number: u8) -> Result<ProgramCall, Unknown> {
        match number {
            1 => Ok(ProgramCall::FrameLister),
            2 => Ok(ProgramCall::NlsfStabiliser),
            _ => Err(Unknown),
        }
    }
}
