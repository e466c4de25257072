// The program whose values are tried.
use gt_layout::Layouts;
use gt_types::Program;
use std::alloc::Global;

/// The sample program, laid out.
#[derive(Drop)]
pub struct Sample {
    pub alloc: Global,
    pub program: Program,
    pub layouts: Layouts,
}
