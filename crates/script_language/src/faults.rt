//! What is wrong with a text.

/// The kind of a fault.
#[derive(Clone, Copy, Debug, PartialEq, Eq)]
pub enum FaultKind {
    /// A token that is no word of its place, or has a byte that is no printable character.
    Word,
    /// A token that is no number.
    Number,
    /// A token that is no datatype.
    Datatype,
    /// A token that is no operation.
    Op,
    /// A token that names no window or request.
    Name,
    /// A line in a wrong place, or with too few or too many tokens, or that says a rank twice.
    Shape,
    /// A number out of its range, or a total past its limit.
    Limit,
    /// Memory ran out. It says nothing of the text.
    NoMemory,
}

/// The first fault of a text, and the line that it stands in, from 1. Line 0 is the whole text.
#[derive(Clone, Copy, Debug, PartialEq, Eq)]
pub struct Fault {
    pub line: u32,
    pub kind: FaultKind,
}
