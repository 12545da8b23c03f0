/// Why bytes weren't read.
#[derive(Clone, Copy, Debug, PartialEq, Eq)]
pub enum ReadError {
    /// Nothing within the limits has these canonical bytes. Reading goes from left to right and begins items
    /// (integers, byte strings, lists) in the order of their places. It stops at the first item that no rule allows,
    /// or whose end shows that a rule is broken: `at` is the place of the last item begun. A missing item counts as
    /// begun where it should stand. Bytes behind the whole are refused at the first of them, and a value or an
    /// expression of more than 1,048,576 bytes at 0. In a record one of more bytes is refused at its last item.
    NotCanonical { at: u64 },
    OutOfMemory,
}
