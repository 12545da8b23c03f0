ghost use Rattle.std.specs.Prelude.{◌≡◌};
ghost use Rattle.rd_value.specs.Class as spec;

/// The class of an error. A class catches itself, `Exception` every class, and `RuntimeError` also `RecursionError`.
#[derive(Clone, Copy, Debug, PartialEq, Eq, Hash)]
pub enum Class {
    Exception,
    ValueError,
    TypeError,
    KeyError,
    IndexError,
    ZeroDivisionError,
    OverflowError,
    FileNotFoundError,
    PermissionError,
    RuntimeError,
    RecursionError,
    AttributeError,
    NameError,
    LimitError,
}

impl Class {
    /// The name as sources and printed texts write it.
    pub fn name(self) -> &'static str
        ensures { result.now ≡ spec.name self }
    {
        match self {
            Class::Exception => "Exception",
            Class::ValueError => "ValueError",
            Class::TypeError => "TypeError",
            Class::KeyError => "KeyError",
            Class::IndexError => "IndexError",
            Class::ZeroDivisionError => "ZeroDivisionError",
            Class::OverflowError => "OverflowError",
            Class::FileNotFoundError => "FileNotFoundError",
            Class::PermissionError => "PermissionError",
            Class::RuntimeError => "RuntimeError",
            Class::RecursionError => "RecursionError",
            Class::AttributeError => "AttributeError",
            Class::NameError => "NameError",
            Class::LimitError => "LimitError",
        }
    }
}
