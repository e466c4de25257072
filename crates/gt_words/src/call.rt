use gt_types::{List, Word};

/// What the words ask for.
#[derive(Debug, PartialEq, Eq, Drop)]
pub struct Call {
    pub settings: Settings,
    pub script: Script,
    /// The names of the header files in order: from 1 to 64, and none where the script is generated.
    pub headers: List<Word>,
}

/// The numbers that the options give, or their defaults.
#[derive(Clone, Copy, Debug, PartialEq, Eq)]
pub struct Settings {
    /// `--space`: how many pages of 4096 bytes the space has, from 16 to 16384.
    pub pages: u32,
    /// `--min-expand`: by how many percent the allocated bytes grow before a collection is worth while, from 0 to 1000.
    pub min_expand: u32,
    /// `--min-heapsize`: the KiB below which a heap counts as so large, from 0 to 1048576.
    pub min_heapsize: u32,
}

/// Where the script comes from.
#[derive(Debug, PartialEq, Eq, Drop)]
pub enum Script {
    /// The file of this name, which is the word as given.
    File(Word),
    /// `:N`, which is the word as given: the script that is generated for a list of N nodes, under its own header.
    Generated { word: Word, n: u32 },
}
