// The status that an acknowledgement carries. A reader of blocks gives one as its error.
ghost use Rattle.std.specs.Prelude.{◌≡◌};
ghost use Rattle.block.specs.Statuses.{code_of, named};

use thiserror::Error;

#[derive(Clone, Copy, PartialEq, Eq, Debug, Error)]
pub enum Status {
    #[error("00h good")]
    Good = 0x00,
    #[error("01h bad check")]
    BadCheck = 0x01,
    #[error("02h over-length")]
    OverLength = 0x02,
    #[error("03h under-length")]
    UnderLength = 0x03,
    #[error("04h unsupported")]
    Unsupported = 0x04,
    #[error("05h out of resources")]
    OutOfResources = 0x05,
    #[error("06h log-in in progress")]
    LogInInProgress = 0x06,
    #[error("07h illegal pause")]
    IllegalPause = 0x07,
    #[error("40h out of turn")]
    OutOfTurn = 0x40,
    #[error("41h bad log-in")]
    BadLogIn = 0x41,
    #[error("42h bad record")]
    BadRecord = 0x42,
}

impl Status {
    pub fn code(self) -> u8
        ensures { result ≡ code_of self }
    {
        self as u8
    }
}

// A code that no status has.
#[derive(Clone, Copy, PartialEq, Eq, Debug, Error)]
#[error("{0:02X}h unknown")]
pub struct UnknownStatus(pub u8);

impl TryFrom<u8> for Status {
    type Error = UnknownStatus;

    ghost try_from_gives = { λ code r. r ≡ named code };

    fn try_from(code: u8) -> Result<Status, UnknownStatus> {
        match code {
            0x00 => Ok(Status::Good),
            0x01 => Ok(Status::BadCheck),
            0x02 => Ok(Status::OverLength),
            0x03 => Ok(Status::UnderLength),
            0x04 => Ok(Status::Unsupported),
            0x05 => Ok(Status::OutOfResources),
            0x06 => Ok(Status::LogInInProgress),
            0x07 => Ok(Status::IllegalPause),
            0x40 => Ok(Status::OutOfTurn),
            0x41 => Ok(Status::BadLogIn),
            0x42 => Ok(Status::BadRecord),
            _ => Err(UnknownStatus(code)),
        }
    }
}
