// The program that headers declare.
ghost use Rattle.std.specs.Prelude.{◌≤◌, ◌<◌, ◌^◌, All, IfErr, IfOk, length};
ghost use Rattle.std.specs.Bool.{Decides};
ghost use Rattle.gt_layout.specs.Planes.{IsLaidOut};
ghost use Rattle.gt_layout.specs.Excess.{IsWithin};
ghost use Rattle.gt_markers.specs.Sound.{IsSound};
ghost use Rattle.gt_resolve.specs.Resolution.{Resolves};
ghost use Rattle.gt_headers.specs.Headers.{Declares, IsHeaderStop};
ghost use Rattle.gt_headers.specs.Reading.{AreRead};

use crate::reading::read_all;
use crate::sizes::lay_out;
use gt_drafts::Draft;
use gt_items::Items;
use gt_layout::Layouts;
use gt_options::settle;
use gt_resolve::resolve;
use gt_types::{Bytes, MAX_HEADERS, Program, Stop};
use std::alloc::Global;

/// What headers declare: a program, and how its structures and its static record lie.
#[derive(Drop)]
pub struct Declared {
    pub program: Program,
    pub layouts: Layouts,
}

/// Whether texts may be read together: there are at most 64, and each is shorter than 4 GiB.
pub fn are_within_limits(texts: &[Bytes]) -> bool
    ensures decides { Decides result ((length texts.now ≤ MAX_HEADERS) × All (λ text. length text < 2 ^ 32) texts.now) }
{
    texts.len() <= MAX_HEADERS && texts.iter().all(|text| text.len() < 1 << 32)
}

/// The program that the headers with these texts declare, in their order, and its layouts. Each text is read by itself, and its
/// faults (1 to 10) come first, in the order of the texts; then come those of names and types over all of them (11 to 15), then
/// those of options (16 to 23), and then that of a program that is too large (24).
pub fn declare(alloc: Global, texts: &[Bytes]) -> Result<Declared, Stop>
    requires few { length texts.now ≤ MAX_HEADERS }
    requires short { All (λ text. length text < 2 ^ 32) texts.now }
    ensures declared { IfOk result (λ declared. Declares texts.now declared.program) }
    ensures laid_out { IfOk result (λ declared. IsLaidOut declared.program declared.layouts) }
    ensures within { IfOk result (λ declared. IsWithin declared.program declared.layouts) }
    ensures stopped { IfErr result (IsHeaderStop texts.now) }
{
    let Resolution { files, draft } = match resolve_all(alloc, texts) {
        Ok(resolution) => resolution,
        Err(stop) => return Err(stop),
    };
    let program = match settle(alloc, draft) {
        Ok(program) => program,
        Err(stop) => return Err(stop),
    };
    match lay_out(alloc, &files, &program) {
        Ok(layouts) => Ok(Declared { program, layouts }),
        Err(stop) => Err(stop),
    }
}

// The items of all texts, and what their names and types mean.
#[derive(Drop)]
struct Resolution {
    files: Vec<Items>,
    draft: Draft,
}

// The names and types of all texts, or their first fault.
fn resolve_all(alloc: Global, texts: &[Bytes]) -> Result<Resolution, Stop>
    requires few { length texts.now ≤ MAX_HEADERS }
    requires short { All (λ text. length text < 2 ^ 32) texts.now }
    ensures read { IfOk result (λ r. AreRead texts.now r.files.items) }
    ensures resolved { IfOk result (λ r. Resolves r.files.items r.draft) }
    ensures sound { IfOk result (λ r. IsSound r.draft) }
    ensures stopped { IfErr result (IsHeaderStop texts.now) }
{
    let files = match read_all(alloc, texts) {
        Ok(files) => files,
        Err(stop) => return Err(stop),
    };
    match resolve(alloc, &files) {
        Ok(draft) => Ok(Resolution { files, draft }),
        Err(stop) => Err(stop),
    }
}
