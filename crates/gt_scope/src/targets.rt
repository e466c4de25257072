// What typedefs lead to. The type of an item is looked up once, for all its names.
ghost use Rattle.std.specs.Prelude.{◌≡◌, ◌<◌, ℕ, List, true, false, length, None, Some, IfOk, slice_get};
ghost use Rattle.gt_names.specs.declared.tables.Entry.{Entry};
ghost use Rattle.gt_scope.specs.declared.declaration.What.{What};
ghost use Rattle.gt_scope.specs.declared.types.Spelled.{Spelled};
ghost use Rattle.gt_scope.specs.Chains.{typedef_place, IsTarget};
ghost use Rattle.gt_scope.specs.Kinds.{names_in, Keeps};
ghost use Rattle.gt_scope.specs.Repeats.{type_of, AreRepeats, AreTargets, AreFirsts, AreLinks};

use crate::declaration::{Declaration, What};
use crate::kinds::{Kind, kind_of};
use crate::link::{Link, Target};
use crate::plain::plain;
use crate::types::Spelled;
use gt_items::Stars;
use gt_names::Table;
use std::alloc::{AllocError, Global};

// The place of the typedef whose name the type is.
fn next_of(typedefs: &Table<(Spelled, Stars)>, ty: &Spelled) -> Option<usize>
    ensures next { result ≡ typedef_place typedefs.now ty.now }
{
    match ty {
        Spelled::Named(word) => typedefs.place(word),
        _ => None,
    }
}

// What a typedef of a type leads to, with the undefined tags so far.
fn target(
    alloc: Global,
    defined: &Table<What>,
    typedefs: &Table<(Spelled, Stars)>,
    tags: Table<()>,
    ty: &Spelled,
) -> Result<(Table<()>, Target), AllocError>
    ensures target { IfOk result (λ r. IsTarget defined.now typedefs.now (names_in r.0) ty.now r.1) }
    ensures kept { IfOk result (λ r. Keeps (names_in tags) (names_in r.0)) }
{
    match next_of(typedefs, ty) {
        Some(place) => Ok((tags, Target::Next(place))),
        None => {
            let base = plain(alloc, defined, ty)?;
            let (tags, kind) = kind_of(alloc, tags, &base)?;
            Ok((tags, Target::End(kind)))
        }
    }
}

// What a declaration leads to where it is a typedef: what the last typedef leads to, where it is of the same type.
fn next_target(
    alloc: Global,
    defined: &Table<What>,
    typedefs: &Table<(Spelled, Stars)>,
    tags: Table<()>,
    last: Target,
    repeated: bool,
    what: &What,
) -> Result<(Table<()>, Target), AllocError>
    ensures new { IfOk result (λ r. repeated ≡ false → (ty : Spelled) → type_of what.now ≡ Some ty → IsTarget defined.now typedefs.now (names_in r.0) ty r.1) }
    ensures same { IfOk result (λ r. repeated ≡ true → r.1 ≡ last) }
    ensures other { IfOk result (λ r. type_of what.now ≡ None → r.1 ≡ last) }
    ensures kept { IfOk result (λ r. Keeps (names_in tags) (names_in r.0)) }
{
    if repeated {
        return Ok((tags, last));
    }
    match what {
        What::Typedef { ty, .. } => target(alloc, defined, typedefs, tags, ty),
        _ => Ok((tags, last)),
    }
}

/// What declarations lead to where they are typedefs, with the undefined tags that they are of.
#[derive(Drop)]
pub struct Leads {
    pub tags: Table<()>,
    pub targets: Vec<Target>,
}

/// What each declaration leads to where it is a typedef.
pub fn targets(
    alloc: Global,
    defined: &Table<What>,
    typedefs: &Table<(Spelled, Stars)>,
    declarations: &[Declaration],
    repeated: &[bool],
) -> Result<Leads, AllocError>
    requires repeated { AreRepeats declarations.now repeated.now }
    ensures targets { IfOk result (λ r. AreTargets defined.now typedefs.now (names_in r.tags) declarations.now r.targets.items) }
{
    let mut tags = Table::new(alloc);
    let mut targets = Vec::new(alloc);
    let mut last = Target::End(Kind::Unknown);
    for (place, d) in declarations.iter().enumerate() {
        let next = next_target(
            alloc,
            defined,
            typedefs,
            tags,
            last,
            repeated[place],
            &d.what,
        )?;
        tags = next.0;
        last = next.1;
        targets.push(last)?;
    }
    Ok(Leads { tags, targets })
}

fn target_at(targets: &[Target], place: usize) -> Target
    requires within { place < length targets.now }
    ensures target { Some result ≡ slice_get targets.now place }
{
    targets[place]
}

/// A link for each typedef, by the places of the first typedefs of their names among the declarations.
pub fn links(
    alloc: Global,
    typedefs: &Table<(Spelled, Stars)>,
    firsts: &[usize],
    declarations: &[Declaration],
    targets: &[Target],
) -> Result<Vec<Link>, AllocError>
    requires firsts { AreFirsts declarations.now typedefs.now firsts.now }
    requires counted { length targets.now ≡ length declarations.now }
    ensures links { IfOk result (λ made. (defined : List (Entry What)) (tags : List (List ℕ)) → AreTargets defined typedefs.now tags declarations.now targets.now
        → AreLinks defined typedefs.now tags made.items) }
{
    let mut made = Vec::new(alloc);
    for (place, entry) in typedefs.entries().iter().enumerate() {
        let stars = entry.value.1;
        let to = target_at(targets, firsts[place]);
        made.push(Link { stars, to })?;
    }
    Ok(made)
}
