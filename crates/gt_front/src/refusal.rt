use gt_types::Fault;

/// Why no command was run.
#[derive(Clone, Copy, Debug, PartialEq, Eq)]
pub enum Refusal {
    /// The words ask for nothing.
    Words,
    /// A header has a fault.
    Header(Fault),
    /// The script has a fault: `SCRIPT_SYNTAX` at a line counted from 1, or `SCRIPT_TOO_LONG` with 0 as its line.
    Script { number: u8, line: u32 },
    /// A file: 0 is the script, i the i-th header.
    File { word: u32, why: FileWhy },
    /// The script has a command that is not built yet.
    NotBuilt,
}

/// Why a file was not read.
#[derive(Clone, Copy, Debug, PartialEq, Eq)]
pub enum FileWhy {
    /// There is no such file.
    Missing,
    /// It is longer than its limit.
    TooLong,
    /// Its reading failed.
    Fault,
}
