//! Why a document is no plan.
ghost use Rattle.std.specs.Prelude.{◌≡◌};
ghost use Rattle.lists.specs.declared.stop.Stop.TheVariants.{At};

use lists::Stop;
use thiserror::Error;

/// Why a document is no plan of a launch. Lines are counted from 1.
#[derive(Clone, Copy, Debug, Drop, PartialEq, Eq, Error)]
pub enum PlanFault {
    /// A node on the line has a tag that isn't `!fd` or `!file`.
    #[error("line {0}: UnknownTag")]
    UnknownTag(u32),
    /// A node on the line is tagged `!fd` and isn't `stdin`, `stdout` or `stderr`.
    #[error("line {0}: BadFd")]
    BadFd(u32),
    /// A node on the line is tagged `!file`, and is no map of a `path` and perhaps of lists `rights` and `inheriting`.
    #[error("line {0}: BadFile")]
    BadFile(u32),
    /// An item on the line, of a list of `!file`, is no right's name.
    #[error("line {0}: UnknownRight")]
    UnknownRight(u32),
    /// The path on the line leads to no file or directory.
    #[error("line {0}: NoSuchPath")]
    NoSuchPath(u32),
    /// There are more than 1024 descriptors.
    #[error("too many")]
    TooMany,
    /// The argument data has more than 65,536 bytes.
    #[error("too large")]
    TooLarge,
}

impl From<PlanFault> for Stop<PlanFault> {
    ghost from_gives = { λ fault stop. stop ≡ At fault };

    fn from(fault: PlanFault) -> Stop<PlanFault> {
        Stop::At(fault)
    }
}
