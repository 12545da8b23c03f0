//! The methods of values.

/// A method of a text or of a dict.
#[derive(Clone, Copy, Debug, PartialEq, Eq)]
pub enum Method {
    Format,
    Split,
    Join,
    Strip,
    StartsWith,
    EndsWith,
    Replace,
    Get,
    Keys,
    Values,
    Items,
}
