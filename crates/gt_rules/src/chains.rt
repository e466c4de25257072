// The faults of chains.
ghost use Rattle.std.specs.Prelude.{◌≡◌, IfOk, is_some};
ghost use Rattle.std.specs.Bool.{Decides};
ghost use Rattle.gt_markers.specs.Options.{kind_of};
ghost use Rattle.gt_declare.specs.Programs.{chain_kind};
ghost use Rattle.gt_rules.specs.Parts.{IsIndexFor, IsFirstWith, ChainFault, ChainsFaults, LeadsBack};

use crate::known::Known;
use gt_declare::path_places;
use gt_drafts::with_fault;
use gt_items::{Parameter, RawOption};
use gt_markers::{CHAIN_NOT_OWN_POINTER, OptionKind};
use gt_paths::leads_to_own_pointer;
use gt_types::{Fault, TypeId, Word};
use std::alloc::AllocError;

// Whether an option is one of chains.
fn is_chain(name: &Word) -> bool
    ensures chain { result ≡ is_some (chain_kind (kind_of name.now)) }
{
    match OptionKind::of(name) {
        Some(OptionKind::ChainNext | OptionKind::ChainPrev | OptionKind::ChainCircular) => true,
        _ => false,
    }
}

// Whether the path of a chain leads to a plain pointer to its own structure.
fn leads_back(known: Known, structure: TypeId, parameter: &Parameter) -> Result<bool, AllocError>
    requires index { IsIndexFor known.draft.now known.program.now known.index.now }
    ensures decides { IfOk result (λ r. Decides r (LeadsBack known.entry.program.now structure parameter.now)) }
{
    let structures = known.program.structures.as_slice();
    match path_places(
        known.alloc,
        structures,
        known.index.names(),
        structure,
        parameter,
    )? {
        None => Ok(false),
        Some(path) => {
            let places = path.as_slice();
            Ok(leads_to_own_pointer(known.program, known.index, structure, places))
        }
    }
}

// The earliest fault with that of an option, where it is one of chains.
fn of_chain(
    earliest: Option<Fault>,
    known: Known,
    structure: TypeId,
    file: u32,
    option: &RawOption,
) -> Result<Option<Fault>, AllocError>
    requires index { IsIndexFor known.draft.now known.program.now known.index.now }
    ensures first { IfOk result (IsFirstWith earliest (ChainFault known.entry.program.now structure file option.now)) }
{
    if !is_chain(&option.name.word) {
        return Ok(earliest);
    }
    let leads = leads_back(known, structure, &option.parameter)?;
    Ok(with_fault(
        earliest,
        !leads,
        CHAIN_NOT_OWN_POINTER,
        file,
        option.name.at,
    ))
}

/// The earliest fault with those of the chains of a structure. It fails only if memory runs out.
pub fn of_chains(
    earliest: Option<Fault>,
    known: Known,
    structure: TypeId,
    file: u32,
    options: &[RawOption],
) -> Result<Option<Fault>, AllocError>
    requires index { IsIndexFor known.draft.now known.program.now known.index.now }
    ensures first { IfOk result (IsFirstWith earliest (ChainsFaults known.entry.program.now structure file options.now)) }
{
    let mut earliest = earliest;
    for option in options {
        earliest = of_chain(earliest, known, structure, file, option)?;
    }
    Ok(earliest)
}
