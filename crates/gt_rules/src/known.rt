// What faults are looked for in.
use gt_drafts::Draft;
use gt_items::RawOption;
use gt_markers::Lookup;
use gt_paths::PathIndex;
use gt_types::Program;
use std::alloc::Global;

/// A draft and its program, with what is looked up in them.
#[derive(Clone, Copy)]
pub struct Known<'a> {
    pub alloc: Global,
    pub draft: &'a Draft,
    pub lookup: &'a Lookup,
    pub program: &'a Program,
    pub index: &'a PathIndex,
}

/// The options of the marker of a field or of a root, and the file in which they stand.
#[derive(Clone, Copy)]
pub struct Options<'a> {
    pub of_field: bool,
    pub file: u32,
    pub options: &'a [RawOption],
}
