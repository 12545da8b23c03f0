//! What a module is refused for.

ghost use Rattle.std.specs.Prelude.{◌≡◌, [], None, MatchOption};
ghost use Rattle.rd_names.specs.Refusals as spec;

use rd_base::OutOfMemory;

/// Why a module isn't registered.
#[derive(Clone, Copy, Debug, PartialEq, Eq)]
pub enum RegisterError {
    UnknownName { line: u32 },
    DoubleName { line: u32 },
    BadOption { line: u32 },
    OutOfMemory,
}

impl From<OutOfMemory> for RegisterError {
    ghost use Rattle.std.specs.Prelude.{◌≡◌};
    ghost use Rattle.rd_names.specs.declared.refusal.RegisterError.TheVariants.{OutOfMemory};

    ghost from_gives = { λ _ e. e ≡ OutOfMemory };

    fn from(_error: OutOfMemory) -> RegisterError {
        RegisterError::OutOfMemory
    }
}

/// The rule that is broken. On one line the first of these is answered.
#[derive(Clone, Copy, Debug, PartialEq, Eq)]
pub enum Broken {
    DoubleName,
    BadOption,
    UnknownName,
}

impl Broken {
    fn rank(self) -> u8
        ensures { result ≡ spec.rank self }
    {
        match self {
            Broken::DoubleName => 0,
            Broken::BadOption => 1,
            Broken::UnknownName => 2,
        }
    }
}

/// A place where a module breaks a rule.
#[derive(Clone, Copy, Debug, PartialEq, Eq)]
pub struct Refusal {
    pub rule: Broken,
    pub line: u32,
}

impl Refusal {
    fn is_before(self, other: Refusal) -> bool
        ensures { result ≡ spec.is_before self other }
    {
        self.line < other.line || (self.line == other.line && self.rule.rank() < other.rule.rank())
    }

    pub(crate) fn error(self) -> RegisterError
        ensures { result ≡ spec.error self }
    {
        let line = self.line;
        match self.rule {
            Broken::DoubleName => RegisterError::DoubleName { line },
            Broken::BadOption => RegisterError::BadOption { line },
            Broken::UnknownName => RegisterError::UnknownName { line },
        }
    }
}

fn sooner(found: Option<Refusal>, next: Refusal) -> Option<Refusal>
    ensures { result ≡ spec.sooner found next }
{
    match found {
        Some(first) if !next.is_before(first) => Some(first),
        _ => Some(next),
    }
}

/// The refusal that is answered.
pub(crate) fn first(refusals: &[Refusal]) -> Option<Refusal>
    ensures { MatchOption result (refusals.now ≡ []) (λ r. spec.IsFirst r refusals.now) }
{
    let mut found = None;
    for refusal in refusals {
        found = sooner(found, *refusal);
    }
    found
}
