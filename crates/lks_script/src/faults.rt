//! Why bytes aren't read as a script.

/// Why a script can't be read.
#[derive(Clone, Copy, Debug, PartialEq, Eq)]
pub enum ScriptFault {
    /// The first line, counted from 1, that isn't a line of its place.
    BadLine { line: u32 },
    /// No memory was there.
    Memory,
}
