//! The walker tables of the sample program, walk by walk, as text, and the walks of parts and roots of each header in a row of the input: the
//! stored output was reasoned by hand. A walk is its number and its rows: a note with the size of an element and the offset of the chain
//! pointer; pointers with an offset, a walk and a count; parts with an offset and a walk; elements with an offset, how many there are, and
//! their size; and members by the value of an expression, which is written by the numbers that it reads.
#![tactic(auto)]

mod headers;
mod texts;
mod walks;

use crate::headers::print_headers;
use crate::walks::print_tables;
use gt_layout::layout;
use gt_tables::build;
use sample_program::sample;
use std::io;

fn main(rt: HostRuntime) -> io::Result<()> {
    let alloc = rt.alloc();
    let program = sample(alloc)?;
    let Ok(layouts) = layout(alloc, &program) else {
        return println!(rt; "the sample is not laid out");
    };
    let tables = build(alloc, &program, &layouts)?;
    print_tables(&rt, alloc, &tables, 0)?;
    print_headers(&rt)
}
