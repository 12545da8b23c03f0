ghost use Rattle.std.specs.Prelude.{◌≡◌};
ghost use Rattle.rd_base.specs.Status.{number_of};

use crate::digest::Digest;
use crate::path::Path;
use crate::seen::Collision;

/// How a command ended.
#[derive(Debug, Drop)]
pub enum Status {
    /// With a value, or with the command's text.
    Done,
    WorkflowError,
    WordsRefused,
    SourceRefused { line: u32 },
    KeeperUnavailable,
    DiskUnavailable,
    OutOfMemory,
    TooLarge,
    WriteConflict { path: Path },
    Collided(Collision),
    OutputFailed,
    NotFound,
    Damaged { digest: Digest },
}

impl Status {
    /// The status that a program ends with: 0 to 12, in the order of the variants.
    pub fn number(&self) -> u8
        ensures { result ≡ number_of self.now }
    {
        match self {
            Status::Done => 0,
            Status::WorkflowError => 1,
            Status::WordsRefused => 2,
            Status::SourceRefused { .. } => 3,
            Status::KeeperUnavailable => 4,
            Status::DiskUnavailable => 5,
            Status::OutOfMemory => 6,
            Status::TooLarge => 7,
            Status::WriteConflict { .. } => 8,
            Status::Collided(_) => 9,
            Status::OutputFailed => 10,
            Status::NotFound => 11,
            Status::Damaged { .. } => 12,
        }
    }
}
