ghost use Rattle.std.specs.Prelude.{◌≡◌};
ghost use Rattle.rd_value.specs.Canon.{string};
ghost use Rattle.rd_bencode.specs.Blob.{kind_text};

/// What a blob holds.
#[derive(Clone, Copy, Debug, PartialEq, Eq, Hash)]
pub enum Kind {
    Task,
    Args,
    Value,
    Expr,
    Writes,
    Children,
    Footprint,
    Evaluation,
    Call,
    Execution,
}

impl Kind {
    /// The text that a blob of this kind begins with.
    pub fn text(self) -> &'static str
        ensures { result.now ≡ kind_text self }
    {
        match self {
            Kind::Task => "task",
            Kind::Args => "args",
            Kind::Value => "value",
            Kind::Expr => "expr",
            Kind::Writes => "writes",
            Kind::Children => "children",
            Kind::Footprint => "footprint",
            Kind::Evaluation => "evaluation",
            Kind::Call => "call",
            Kind::Execution => "execution",
        }
    }
    /// The same text as a byte string.
    pub(crate) fn front(self) -> &'static str
        ensures { result.now ≡ string (kind_text self) }
    {
        match self {
            Kind::Task => "4:task",
            Kind::Args => "4:args",
            Kind::Value => "5:value",
            Kind::Expr => "4:expr",
            Kind::Writes => "6:writes",
            Kind::Children => "8:children",
            Kind::Footprint => "9:footprint",
            Kind::Evaluation => "10:evaluation",
            Kind::Call => "4:call",
            Kind::Execution => "9:execution",
        }
    }
}
