// The chains of structures.
ghost use Rattle.std.specs.Prelude.{◌≡◌, ◌≤◌, ◌++◌, filter_map, length, IfOk, All};
ghost use Rattle.std.specs.Option.{option_to_list};
ghost use Rattle.gt_types.specs.declared.limits.TheConstants.{MAX_STRUCTURES, MAX_FIELDS};
ghost use Rattle.gt_declare.specs.Programs.{chain_kind, chain_of, with_chains};
ghost use Rattle.gt_fields.specs.FieldNames.{AreNamesOf};
ghost use Rattle.gt_declare.specs.Chains.{chains_of, chains_from, joined};

use crate::paths::path_places;
use gt_drafts::DraftStructure;
use gt_fields::FieldNames;
use gt_items::RawOption;
use gt_markers::OptionKind;
use gt_types::{Chain, ChainKind, List, Structure, TypeId};
use std::alloc::{AllocError, Global};

// The kind of a chain option.
fn chain_kind(kind: Option<OptionKind>) -> Option<ChainKind>
    ensures kind { result ≡ chain_kind kind }
{
    match kind {
        Some(OptionKind::ChainNext) => Some(ChainKind::Next),
        Some(OptionKind::ChainPrev) => Some(ChainKind::Prev),
        Some(OptionKind::ChainCircular) => Some(ChainKind::Circular),
        _ => None,
    }
}

// A chain option, where its path leads somewhere.
fn chain_of(
    alloc: Global,
    structures: &[Structure],
    names: &FieldNames,
    from: TypeId,
    option: &RawOption,
) -> Result<Option<Chain>, AllocError>
    requires names { AreNamesOf structures.now names.now }
    ensures chain { IfOk result (λ chain. chain ≡ chain_of structures.now from option.now) }
{
    let Some(kind) = chain_kind(OptionKind::of(&option.name.word)) else {
        return Ok(None);
    };
    match path_places(alloc, structures, names, from, &option.parameter)? {
        None => Ok(None),
        Some(path) => Ok(Some(Chain { kind, path })),
    }
}

// Chains with one more at the end, where there is one.
fn with_some(before: List<Chain>, chain: Option<Chain>) -> Result<List<Chain>, AllocError>
    ensures added { IfOk result (λ made. made ≡ before ++ option_to_list chain) }
{
    let mut chains = before;
    match chain {
        None => Ok(chains),
        Some(chain) => {
            chains.push(chain)?;
            Ok(chains)
        }
    }
}

// The chains of a structure.
fn chains_of(
    alloc: Global,
    structures: &[Structure],
    names: &FieldNames,
    from: TypeId,
    options: &[RawOption],
) -> Result<List<Chain>, AllocError>
    requires names { AreNamesOf structures.now names.now }
    ensures chains { IfOk result (λ chains. chains ≡ filter_map (chain_of structures.now from) options.now) }
{
    let mut chains = List::new(alloc);
    for option in options {
        let chain = chain_of(alloc, structures, names, from, option)?;
        chains = with_some(chains, chain)?;
    }
    Ok(chains)
}

// The chains of each structure.
#[tactic(auto, unfolding(crate::specs::Chains::chains_from))]
fn all_chains(
    alloc: Global,
    structures: &[Structure],
    names: &FieldNames,
    drafts: &[DraftStructure],
) -> Result<List<List<Chain>>, AllocError>
    requires names { AreNamesOf structures.now names.now }
    requires few { length drafts.now ≤ MAX_STRUCTURES }
    ensures chains { IfOk result (λ all. all ≡ chains_from structures.now 0 drafts.now) }
{
    let mut all = Vec::new(alloc);
    for (place, draft) in drafts.iter().enumerate() {
        let from = TypeId(place as u32);
        let chains = chains_of(alloc, structures, names, from, draft.options.as_slice())?;
        all.push(chains)?;
    }
    Ok(List::of(all))
}

// A structure with these chains.
fn with_these(structure: Structure, chains: List<Chain>) -> Structure
    ensures { result ≡ record structure { chains = chains } }
{
    Structure {
        name: structure.name,
        is_union: structure.is_union,
        desc: structure.desc,
        fields: structure.fields,
        chains,
    }
}

// Each structure with its chains.
#[tactic(auto, unfolding(crate::specs::Chains::joined))]
fn join_chains(
    alloc: Global,
    chains: List<List<Chain>>,
    structures: List<Structure>,
) -> Result<List<Structure>, AllocError>
    ensures joined { IfOk result (λ made. made ≡ joined chains structures) }
{
    let mut made = Vec::new(alloc);
    for (structure, chains) in structures.into_vec().into_iter().zip(chains.into_vec()) {
        made.push(with_these(structure, chains))?;
    }
    Ok(List::of(made))
}

/// Structures with their chains, as the options of the draft's say. It fails only if memory runs out.
pub fn with_chains(
    alloc: Global,
    drafts: &[DraftStructure],
    structures: List<Structure>,
) -> Result<List<Structure>, AllocError>
    requires few { length drafts.now ≤ MAX_STRUCTURES }
    requires few_fields { All (λ s. length s.fields ≤ MAX_FIELDS) structures }
    ensures chained { IfOk result (λ made. made ≡ with_chains structures 0 drafts.now structures) }
{
    let names = FieldNames::of(alloc, structures.as_slice())?;
    let chains = all_chains(alloc, structures.as_slice(), &names, drafts)?;
    join_chains(alloc, chains, structures)
}
