// The draft of files: what they declare, with resolved types.
ghost use Rattle.std.specs.Prelude.{◌≡◌, ℕ, List, [], ◌++◌, Option, map, filter_map, IfOk, if◌then◌else◌, option_map, OnOk};
ghost use Rattle.std.specs.List.{flat_map};
ghost use Rattle.std.specs.Option.{option_to_list};
ghost use Rattle.gt_items.specs.declared.items.Item.{Item};
ghost use Rattle.gt_items.specs.declared.items.RawType.{RawType};
ghost use Rattle.gt_items.specs.declared.items.Stars.TheVariants.{Zero};
ghost use Rattle.gt_scope.specs.declared.declaration.Declaration.{Declaration};
ghost use Rattle.gt_scope.specs.declared.meaning.TypedefMeaning.{TypedefMeaning};
ghost use Rattle.gt_drafts.specs.declared.types.Amount.TheVariants.{Unread};
ghost use Rattle.gt_scope.specs.Meanings.{resolved_type};
ghost use Rattle.gt_scope.specs.Spelling.{spelled_of};
ghost use Rattle.gt_resolve.specs.Drafts.{amount_in, bounds_of, declarator_type, field_of, fields_in, structure_of, root_type, root_of, pointed_type, cache_of, structure_item, root_item, cache_item, items_from, word_of, constants_from, draft_of};

use crate::copies::{name_copy, options_copy};
use gt_drafts::{
    Amount, BaseType, DeclaredType, Draft, DraftCache, DraftConstant, DraftField, DraftRoot,
    DraftStructure, DraftWord, Resolved, has_length,
};
use gt_items::{
    Declarator, Item, Items, PointedType, RawCache, RawField, RawRoot, RawStructure, RawType, Stars,
};
use gt_scope::{Scope, TypedefMeaning, spelling_of, with_stars};
use gt_types::{Bytes, Copied, List};
use std::alloc::{AllocError, Global};

// ---- bounds and bits

fn amount_in(alloc: Global, scope: &Scope, text: &Bytes) -> Result<Amount, AllocError>
    ensures amount { IfOk result (λ a. a ≡ amount_in scope.now.declarations.items text.now) }
{
    scope.amount(alloc, text.as_slice())
}

// The outermost bound, which is not read where it is replaced by a length.
fn outermost(
    alloc: Global,
    scope: &Scope,
    replaced: bool,
    text: &Bytes,
) -> Result<Amount, AllocError>
    ensures amount { IfOk result (λ a. a ≡ (if replaced then Unread else amount_in scope.now.declarations.items text.now)) }
{
    if replaced {
        return Ok(Amount::Unread);
    }
    amount_in(alloc, scope, text)
}

fn with_amounts(
    alloc: Global,
    scope: &Scope,
    before: Vec<Amount>,
    texts: &[Bytes],
) -> Result<Vec<Amount>, AllocError>
    ensures amounts { IfOk result (λ made. made.items ≡ before.items ++ map (amount_in scope.now.declarations.items) texts.now) }
{
    let mut made = before;
    for text in texts {
        made.push(amount_in(alloc, scope, text)?)?;
    }
    Ok(made)
}

fn bounds(
    alloc: Global,
    scope: &Scope,
    replaced: bool,
    texts: &[Bytes],
) -> Result<List<Amount>, AllocError>
    ensures bounds { IfOk result (λ made. made ≡ bounds_of scope.now.declarations.items replaced texts.now) }
{
    match texts {
        [] => Ok(List::new(alloc)),
        [first, rest @ ..] => {
            let mut made = Vec::new(alloc);
            made.push(outermost(alloc, scope, replaced, first)?)?;
            Ok(List::of(with_amounts(alloc, scope, made, rest)?))
        }
    }
}

fn bits(alloc: Global, scope: &Scope, text: &Option<Bytes>) -> Result<Option<Amount>, AllocError>
    ensures bits { IfOk result (λ made. made ≡ option_map (amount_in scope.now.declarations.items) text.now) }
{
    match text {
        None => Ok(None),
        Some(text) => Ok(Some(amount_in(alloc, scope, text)?)),
    }
}

// ---- types

fn resolve(alloc: Global, scope: &Scope, ty: &RawType, stars: Stars) -> Result<Resolved, AllocError>
    ensures resolved { IfOk result (λ r. r ≡ resolved_type scope.now.declarations.items scope.now.types.items (spelled_of ty.now) stars) }
{
    scope.resolve(alloc, &spelling_of(alloc, ty)?, stars)
}

fn pointed_type(alloc: Global, scope: &Scope, pointed: &PointedType) -> Result<Resolved, AllocError>
    ensures pointed { IfOk result (λ r. r ≡ pointed_type scope.now.declarations.items scope.now.types.items pointed.now) }
{
    resolve(alloc, scope, &pointed.ty, pointed.stars)
}

fn declared_type(
    alloc: Global,
    scope: &Scope,
    means: &Resolved,
    declarator: &Declarator,
) -> Result<DeclaredType, AllocError>
    ensures declared { IfOk result (λ made. (ty : RawType) → means.now ≡ resolved_type scope.now.declarations.items scope.now.types.items (spelled_of ty) Zero
        → made ≡ declarator_type scope.now.declarations.items scope.now.types.items ty declarator.now) }
{
    let replaced = has_length(declarator.options.as_slice());
    Ok(DeclaredType {
        resolved: with_stars(alloc, means, declarator.stars)?,
        bounds: bounds(alloc, scope, replaced, declarator.bounds.as_slice())?,
        bits: bits(alloc, scope, &declarator.bits)?,
        is_function: declarator.is_function,
    })
}

// ---- fields

fn field(
    alloc: Global,
    scope: &Scope,
    means: &Resolved,
    declarator: &Declarator,
) -> Result<DraftField, AllocError>
    ensures field { IfOk result (λ made. (ty : RawType) → means.now ≡ resolved_type scope.now.declarations.items scope.now.types.items (spelled_of ty) Zero
        → made ≡ field_of scope.now.declarations.items scope.now.types.items ty declarator.now) }
{
    Ok(DraftField {
        name: name_copy(alloc, &declarator.name)?,
        options: options_copy(alloc, &declarator.options)?,
        ty: declared_type(alloc, scope, means, declarator)?,
    })
}

// The fields of one type, after others. The type is looked up once.
fn with_fields(
    alloc: Global,
    scope: &Scope,
    before: Vec<DraftField>,
    fields: &RawField,
) -> Result<Vec<DraftField>, AllocError>
    ensures fields { IfOk result (λ made. made.items ≡ before.items ++ fields_in scope.now.declarations.items scope.now.types.items fields.now) }
{
    let means = resolve(alloc, scope, &fields.ty, Stars::Zero)?;
    let mut made = before;
    for declarator in fields.declarators.as_slice() {
        made.push(field(alloc, scope, &means, declarator)?)?;
    }
    Ok(made)
}

fn all_fields(
    alloc: Global,
    scope: &Scope,
    fields: &[RawField],
) -> Result<List<DraftField>, AllocError>
    ensures fields { IfOk result (λ made. made ≡ flat_map (fields_in scope.now.declarations.items scope.now.types.items) fields.now) }
{
    let mut made = Vec::new(alloc);
    for one in fields {
        made = with_fields(alloc, scope, made, one)?;
    }
    Ok(List::of(made))
}

// ---- items

fn structure(
    alloc: Global,
    scope: &Scope,
    file: u32,
    raw: &RawStructure,
) -> Result<DraftStructure, AllocError>
    ensures structure { IfOk result (λ made. made ≡ structure_of scope.now.declarations.items scope.now.types.items file raw.now) }
{
    Ok(DraftStructure {
        file,
        is_union: raw.is_union,
        tag: name_copy(alloc, &raw.tag)?,
        options: options_copy(alloc, &raw.options)?,
        fields: all_fields(alloc, scope, raw.fields.as_slice())?,
    })
}

fn type_of_root(alloc: Global, scope: &Scope, raw: &RawRoot) -> Result<DeclaredType, AllocError>
    ensures root { IfOk result (λ made. made ≡ root_type scope.now.declarations.items scope.now.types.items raw.now) }
{
    let replaced = has_length(raw.options.as_slice());
    Ok(DeclaredType {
        resolved: resolve(alloc, scope, &raw.ty, raw.stars)?,
        bounds: bounds(alloc, scope, replaced, raw.bounds.as_slice())?,
        bits: None,
        is_function: false,
    })
}

fn root(alloc: Global, scope: &Scope, file: u32, raw: &RawRoot) -> Result<DraftRoot, AllocError>
    ensures root { IfOk result (λ made. made ≡ root_of scope.now.declarations.items scope.now.types.items file raw.now) }
{
    Ok(DraftRoot {
        file,
        name: name_copy(alloc, &raw.name)?,
        options: options_copy(alloc, &raw.options)?,
        ty: type_of_root(alloc, scope, raw)?,
    })
}

fn cache(alloc: Global, scope: &Scope, file: u32, raw: &RawCache) -> Result<DraftCache, AllocError>
    ensures cache { IfOk result (λ made. made ≡ cache_of scope.now.declarations.items scope.now.types.items file raw.now) }
{
    Ok(DraftCache {
        file,
        name: name_copy(alloc, &raw.name)?,
        options: options_copy(alloc, &raw.options)?,
        key: pointed_type(alloc, scope, &raw.key)?,
        value: pointed_type(alloc, scope, &raw.value)?,
    })
}

/// What a draft has of items of one kind.
trait OfItem: Drop {
    /// What it is of an item of a file, by the declarations and the meanings of names of typedefs.
    ghost reading: { List Declaration → List TypedefMeaning → ℕ → Item → Option Self };

    /// What it is of an item. Its only error is out of memory.
    fn of_item(
        alloc: Global,
        scope: &Scope,
        file: u32,
        item: &Item,
    ) -> Result<Option<Self>, AllocError>
        ensures read { IfOk result (λ made. made ≡ reading scope.now.declarations.items scope.now.types.items file item.now) };
}

impl OfItem for DraftStructure {
    ghost reading = { structure_item };

    fn of_item(
        alloc: Global,
        scope: &Scope,
        file: u32,
        item: &Item,
    ) -> Result<Option<DraftStructure>, AllocError> {
        match item {
            Item::Structure(raw) => Ok(Some(structure(alloc, scope, file, raw)?)),
            _ => Ok(None),
        }
    }
}

impl OfItem for DraftRoot {
    ghost reading = { root_item };

    fn of_item(
        alloc: Global,
        scope: &Scope,
        file: u32,
        item: &Item,
    ) -> Result<Option<DraftRoot>, AllocError> {
        match item {
            Item::Root(raw) => Ok(Some(root(alloc, scope, file, raw)?)),
            _ => Ok(None),
        }
    }
}

impl OfItem for DraftCache {
    ghost reading = { cache_item };

    fn of_item(
        alloc: Global,
        scope: &Scope,
        file: u32,
        item: &Item,
    ) -> Result<Option<DraftCache>, AllocError> {
        match item {
            Item::Cache(raw) => Ok(Some(cache(alloc, scope, file, raw)?)),
            _ => Ok(None),
        }
    }
}

// ---- files

fn with_some<D: Drop>(before: Vec<D>, one: Option<D>) -> Result<Vec<D>, AllocError>
    ensures added { IfOk result (λ made. made.items ≡ before.items ++ option_to_list one) }
{
    let mut made = before;
    match one {
        None => Ok(made),
        Some(one) => {
            made.push(one)?;
            Ok(made)
        }
    }
}

fn with_items<D: OfItem>(
    alloc: Global,
    scope: &Scope,
    file: u32,
    before: Vec<D>,
    items: &[Item],
) -> Result<Vec<D>, AllocError>
    ensures items { IfOk result (λ made. made.items ≡ before.items ++ filter_map (D.reading scope.now.declarations.items scope.now.types.items file) items.now) }
{
    let mut made = before;
    for item in items {
        made = with_some(made, D::of_item(alloc, scope, file, item)?)?;
    }
    Ok(made)
}

// What there is of items of one kind. Where there are more files than a place of a file can tell, memory is too small.
fn of_files<D: OfItem>(alloc: Global, scope: &Scope, files: &[Items]) -> Result<List<D>, AllocError>
    ensures items { IfOk result (λ made. made ≡ items_from (D.reading scope.now.declarations.items scope.now.types.items) 1 files.now) }
{
    let mut made = Vec::new(alloc);
    let mut file: u32 = 0;
    for items in files {
        if file == u32::MAX {
            return Err(AllocError);
        }
        file += 1;
        made = with_items(alloc, scope, file, made, items.items.as_slice())?;
    }
    Ok(List::of(made))
}

// ---- names of typedefs and constants

fn word(alloc: Global, name: &TypedefMeaning) -> Result<Option<DraftWord>, AllocError>
    ensures word { IfOk result (λ made. made ≡ word_of name.now) }
{
    match (&name.means.base, name.means.stars) {
        (BaseType::Structure(id), Stars::Zero) => Ok(Some(DraftWord {
            name: name.name.copy(alloc)?,
            pointer: false,
            id: *id,
        })),
        (BaseType::Structure(id), Stars::One) => Ok(Some(DraftWord {
            name: name.name.copy(alloc)?,
            pointer: true,
            id: *id,
        })),
        _ => Ok(None),
    }
}

fn words(alloc: Global, names: &[TypedefMeaning]) -> Result<List<DraftWord>, AllocError>
    ensures words { IfOk result (λ made. made ≡ filter_map word_of names.now) }
{
    let mut made = Vec::new(alloc);
    for name in names {
        made = with_some(made, word(alloc, name)?)?;
    }
    Ok(List::of(made))
}

fn constants(alloc: Global, scope: &Scope) -> Result<List<DraftConstant>, AllocError>
    ensures constants { IfOk result (λ made. made ≡ constants_from [] scope.now.declarations.items) }
{
    let mut made = Vec::new(alloc);
    for entry in scope.constants() {
        let name = entry.name.copy(alloc)?;
        let value = entry.value;
        made.push(DraftConstant { name, value })?;
    }
    Ok(List::of(made))
}

/// What the files declare, by their scope. Its only error is out of memory.
pub fn draft_of(alloc: Global, files: &[Items], scope: &Scope) -> Result<Draft, AllocError>
    ensures same { IfOk result (λ d. d ≡ draft_of files.now scope.now.declarations.items scope.now.types.items) }
{
    Ok(Draft {
        structures: of_files(alloc, scope, files)?,
        roots: of_files(alloc, scope, files)?,
        caches: of_files(alloc, scope, files)?,
        words: words(alloc, &scope.types)?,
        constants: constants(alloc, scope)?,
    })
}
