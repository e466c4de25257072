// The rows of the table, one line after another.
ghost use Rattle.heap_table.specs.Grounds.{IsGround};

use crate::blocks::have_names;
use crate::good::is_graph;
use crate::graphs::Graph;
use crate::grounds::Ground;
use crate::reading::read_graph;
use std::alloc::{AllocError, Global};
use value_notation::{MALFORMED, Refusal, remark, word_difference};

/// What a row comes out as, if that is not what it wants.
pub fn difference(on: &Ground, line: &str) -> Result<Option<String>, AllocError>
    requires ground { IsGround on.now }
{
    let Some((words, wanted)) = line.split_once(" -> ") else {
        return remark(on.alloc, MALFORMED);
    };
    match words.strip_prefix("graph ") {
        Some(words) => graph_difference(on, words, wanted),
        None => remark(on.alloc, MALFORMED),
    }
}

// The same of a row of a graph.
fn graph_difference(on: &Ground, words: &str, wanted: &str) -> Result<Option<String>, AllocError>
    requires ground { IsGround on.now }
{
    match read_graph(on.alloc, &on.program, words) {
        Ok(g) => word_difference(on.alloc, verdict(on, &g), wanted),
        Err(refusal) => refused(on.alloc, refusal),
    }
}

// What is said of a row that is not read.
fn refused(alloc: Global, refusal: Refusal) -> Result<Option<String>, AllocError> {
    match refusal {
        Refusal::Malformed => remark(alloc, MALFORMED),
        Refusal::Memory => Err(AllocError),
    }
}

// What a graph is.
fn verdict(on: &Ground, g: &Graph) -> &'static str
    requires ground { IsGround on.now }
{
    if !have_names(g.objects.as_slice()) {
        return "no names";
    }
    if is_graph(on, g) { "good" } else { "not good" }
}
