// Why a call declines: a reason with its number, and the layer that gave it.
#![tactic(auto)]

ghost use Rattle.std.specs.Prelude.{◌≡◌};
ghost use Rattle.refusal.specs.Numbers.{number_of};
ghost use Rattle.refusal.specs.declared.Failure.TheVariants.{Refused, OutOfMemory};

use std::alloc::AllocError;
use std::fmt;
use thiserror::Error;

// The reasons, each under the number that operators know it by. The first nine come from the
// input, the others from the state.
#[derive(Clone, Copy, PartialEq, Eq, Debug, Error)]
pub enum Reason {
    #[error("buffer, store or memory too short")]
    TooShort = 1,
    #[error("limit out of range")]
    LimitOutOfRange = 2,
    #[error("heading field out of range")]
    HeadingOutOfRange = 3,
    #[error("spoil by 0")]
    SpoilByZero = 4,
    #[error("block of 0 or over 520 bytes")]
    BlockLength = 5,
    #[error("no whole frame")]
    NoWholeFrame = 6,
    #[error("script of a wrong shape")]
    ScriptShape = 7,
    #[error("unknown letter")]
    UnknownLetter = 8,
    #[error("payload above 512 bytes")]
    PayloadTooLong = 9,
    #[error("open outside Initial")]
    NotInitial = 11,
    #[error("not in this state")]
    WrongState = 12,
    #[error("payload above the agreed size")]
    AboveAgreedSize = 13,
    #[error("as many outstanding as the agreed offset")]
    WindowFull = 14,
    #[error("nothing waits")]
    NothingWaits = 15,
    #[error("sixteen wait")]
    LineFull = 16,
}

// The layers, from the ground up.
#[derive(Clone, Copy, PartialEq, Eq, Debug)]
pub enum Layer {
    Block,
    Wire,
    Line,
    End,
    Bench,
}

// A layer above passes a refusal on as it is, by `?`.
#[derive(Clone, Copy, PartialEq, Eq, Debug, Error)]
#[error("refusal {number} ({layer}): {reason}", number = .reason.number())]
pub struct Refusal {
    pub reason: Reason,
    pub layer: Layer,
}

// A refusal of a call that was handed something to keep, which it hands back.
#[derive(Drop, Error)]
#[error("{refusal}")]
pub struct Declined<T> {
    pub refusal: Refusal,
    pub given: T,
}

// Why a call that reaches for memory came to nothing.
#[derive(Clone, Copy, PartialEq, Eq, Debug, Error)]
pub enum Failure {
    #[error("{0}")]
    Refused(Refusal),
    #[error("{0}")]
    OutOfMemory(AllocError),
}

impl Reason {
    pub fn number(self) -> u8
        ensures { result ≡ number_of self }
    {
        self as u8
    }
}

impl Layer {
    // The refusal that this layer gives.
    pub fn refuses(self, reason: Reason) -> Refusal
        ensures { result ≡ record { reason = reason; layer = self } }
    {
        Refusal {
            reason,
            layer: self,
        }
    }

    // That refusal, with what the call was given to keep.
    pub fn declines<T>(self, reason: Reason, given: T) -> Declined<T>
        ensures refusal { result.refusal ≡ record { reason = reason; layer = self } }
        ensures given { result.given ≡ given }
    {
        Declined {
            refusal: self.refuses(reason),
            given,
        }
    }
}

impl Refusal {
    pub fn number(self) -> u8
        ensures { result ≡ number_of self.reason }
    {
        self.reason.number()
    }
}

// A caller that gives up what was handed back passes the refusal on by `?`.
impl<T: Drop> From<Declined<T>> for Refusal {
    ghost from_gives = { λ declined r. r ≡ declined.refusal };

    fn from(declined: Declined<T>) -> Refusal {
        declined.refusal
    }
}

// Both by hand: what the derive would write says of no variant that it is the one made.
impl From<Refusal> for Failure {
    ghost from_gives = { λ refusal f. f ≡ Refused refusal };

    fn from(refusal: Refusal) -> Failure {
        Failure::Refused(refusal)
    }
}

impl From<AllocError> for Failure {
    ghost from_gives = { λ e f. f ≡ OutOfMemory e };

    fn from(e: AllocError) -> Failure {
        Failure::OutOfMemory(e)
    }
}

impl fmt::Display for Layer {
    fn fmt<W: fmt::Write>(&self, f: &mut fmt::Formatter<W>) -> fmt::Result {
        f.write_str(match *self {
            Layer::Block => "block",
            Layer::Wire => "wire",
            Layer::Line => "line",
            Layer::End => "end",
            Layer::Bench => "bench",
        })
    }
}

#[cfg(test)]
mod tests {
    use super::*;
    use std::test::Fail;

    #[test]
    fn reads_well(rt: HostRuntime) -> Result<(), Fail> {
        let refusal = Refusal {
            reason: Reason::NothingWaits,
            layer: Layer::Line,
        };
        let text = format!(in rt.alloc(); "{refusal}")?;
        assert!(rt; text.as_str() == "refusal 15 (line): nothing waits");
        Ok(())
    }
}
