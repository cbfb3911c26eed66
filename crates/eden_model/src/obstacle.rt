ghost use Rattle.std.specs.Prelude.{◌≡◌};
ghost use Rattle.eden_model.specs.Faults.{obstacle_number};

use thiserror::Error;

/// What keeps a device from storing anything, where it says so.
#[derive(Clone, Copy, Debug, PartialEq, Eq, Error)]
pub enum Obstacle {
    /// No space is left on it (`ENOSPC`).
    #[error("no space is left on the device")]
    NoSpace,
    /// Its user has no share of it left (`EDQUOT`).
    #[error("the disk quota is exceeded")]
    OverQuota,
    /// The file would be longer than the device or its user's limit lets one be (`EFBIG`).
    #[error("the file is too large")]
    TooLarge,
    /// It may only be read (`EROFS`).
    #[error("the device may only be read")]
    ReadOnly,
}

impl Obstacle {
    /// The number of its error, as Linux has it.
    pub fn number(self) -> u32
        ensures { result ≡ obstacle_number self }
    {
        match self {
            Obstacle::NoSpace => 28,
            Obstacle::OverQuota => 122,
            Obstacle::TooLarge => 27,
            Obstacle::ReadOnly => 30,
        }
    }
}
