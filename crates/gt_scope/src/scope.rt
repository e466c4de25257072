// All that the headers declare, with a table for each kind of name.
ghost use Rattle.std.specs.Prelude.{◌≡◌, [], ◌∷◌, ◌++◌, length, map, nat_lt, slice_get, if◌then◌else◌, Some, IfOk, OnOk};
ghost use Rattle.std.specs.Option.{option_map_or};
ghost use Rattle.gt_drafts.specs.Amounts.{amount_of};
ghost use Rattle.gt_scope.specs.Declarations.{declarations, as_constant, constant_in};
ghost use Rattle.gt_scope.specs.Meanings.{AreTypeNames, as_tag, as_typedef, means_after, typedef_names, resolved_type, more_stars, with_stars};
ghost use Rattle.gt_scope.specs.Kinds.{names_in, IsMeant};
ghost use Rattle.std.proofs.Props.{props};
ghost use Rattle.gt_scope.specs.Props.{IsOfKind-prop, IsTarget-prop};
ghost use Rattle.gt_scope.specs.Repeats.{AreAllMeant, AreFirsts, AreNamed, AreRepeats, AreTargets, HaveMeanings, type_of};
ghost use Rattle.gt_scope.specs.declared.declaration.Declaration.{Declaration};
ghost use Rattle.gt_scope.specs.declared.types.Spelled.{Spelled};
ghost use Rattle.gt_items.specs.declared.items.Stars.TheVariants.{Zero};
ghost use Rattle.gt_drafts.specs.Sameness.{same_type};
ghost use Rattle.gt_scope.specs.Chains.{plain_after};
ghost use Rattle.gt_names.specs.Entries.{with_value};
ghost use Rattle.gt_scope.specs.Tables.{values_from};

use crate::copies::base_copy;
use crate::declaration::{Declaration, What};
use crate::declaring::declare_all;
use crate::kinds::{Kind, Meant, meant_after, opaque_meaning, resolved_of, same_meant};
use crate::link::Target;
use crate::meaning::TypedefMeaning;
use crate::plain::plain;
use crate::targets::{Leads, links, targets};
use crate::typedefs::{item_at, meanings};
use crate::types::Spelled;
use gt_drafts::{Amount, Resolved, Values, amount};
use gt_items::{Items, Stars};
use gt_names::{Entry, Table};
use gt_types::{Copied, Word};
use std::alloc::{AllocError, Global};

/// All declarations and the meanings of names of typedefs, with the first tag, constant and typedef of each name.
#[derive(Drop)]
pub struct Scope {
    pub declarations: Vec<Declaration>,
    pub types: Vec<TypedefMeaning>,
    tags: Table<What>,
    constants: Table<i64>,
    typedefs: Table<(Spelled, Stars)>,
    // What each declaration leads to where it is a typedef, by the numbers of undefined tags.
    targets: Leads,
    // The meaning of each name of a typedef.
    meant: Vec<Meant>,
    ghost tagged: { tags ≡ values_from as_tag [] declarations.items },
    ghost constant: { constants ≡ values_from as_constant [] declarations.items },
    ghost typed: { typedefs ≡ values_from as_typedef [] declarations.items },
    ghost named: { map (λ t. t.name) types.items ≡ typedef_names [] declarations.items },
    ghost leads: { AreTargets tags typedefs (names_in targets.tags) declarations.items targets.targets.items } by { Prim.hlevel (props, IsTarget-prop) },
    ghost meanings: { HaveMeanings (names_in targets.tags) meant.items types.items } by { Prim.hlevel (props, IsOfKind-prop) },
}

fn with_tag(
    alloc: Global,
    tags: Table<What>,
    declaration: &Declaration,
) -> Result<Table<What>, AllocError>
    ensures tag { IfOk result (λ made. made ≡ option_map_or (with_value tags declaration.now.name.word) (as_tag declaration.now.what) tags) }
{
    let name = &declaration.name.word;
    match &declaration.what {
        What::Structure { is_union, id } => tags.with(
            alloc,
            name,
            What::Structure {
                is_union: *is_union,
                id: *id,
            },
        ),
        What::Enum { is_signed } => tags.with(
            alloc,
            name,
            What::Enum {
                is_signed: *is_signed,
            },
        ),
        _ => Ok(tags),
    }
}

/// The first definition of each tag.
#[tactic(auto, unfolding(crate::specs::Tables::values_from))]
fn tags(alloc: Global, declarations: &[Declaration]) -> Result<Table<What>, AllocError>
    ensures tags { IfOk result (λ made. made ≡ values_from as_tag [] declarations.now) }
{
    let mut made = Table::new(alloc);
    for declaration in declarations {
        made = with_tag(alloc, made, declaration)?;
    }
    Ok(made)
}

fn with_constant(
    alloc: Global,
    constants: Table<i64>,
    declaration: &Declaration,
) -> Result<Table<i64>, AllocError>
    ensures constant { IfOk result (λ made. made ≡ option_map_or (with_value constants declaration.now.name.word) (as_constant declaration.now.what) constants) }
{
    match &declaration.what {
        What::Constant(value) => constants.with(alloc, &declaration.name.word, *value),
        _ => Ok(constants),
    }
}

/// The first value of each constant.
#[tactic(auto, unfolding(crate::specs::Tables::values_from))]
fn constants(alloc: Global, declarations: &[Declaration]) -> Result<Table<i64>, AllocError>
    ensures constants { IfOk result (λ made. made ≡ values_from as_constant [] declarations.now) }
{
    let mut made = Table::new(alloc);
    for declaration in declarations {
        made = with_constant(alloc, made, declaration)?;
    }
    Ok(made)
}

fn with_typedef(
    alloc: Global,
    typedefs: Table<(Spelled, Stars)>,
    declaration: &Declaration,
) -> Result<Table<(Spelled, Stars)>, AllocError>
    ensures typedef { IfOk result (λ made. made ≡ option_map_or (with_value typedefs declaration.now.name.word) (as_typedef declaration.now.what) typedefs) }
{
    match &declaration.what {
        What::Typedef { ty, stars } => {
            let value = (ty.copy(alloc)?, *stars);
            typedefs.with(alloc, &declaration.name.word, value)
        }
        _ => Ok(typedefs),
    }
}

// Notes the place of a declaration, where the typedefs are one more after it.
fn note_first(firsts: &mut Vec<usize>, count: usize, place: usize) -> Result<(), AllocError>
    ensures noted { OnOk result (firsts.new.items ≡ (if nat_lt (length firsts.old.items) count then firsts.old.items ++ place ∷ [] else firsts.old.items)) }
{
    if firsts.len() < count {
        firsts.push(place)?;
    }
    Ok(())
}

/// The first typedef of each name, with its place among the declarations.
#[derive(Drop)]
struct FirstTypedefs {
    table: Table<(Spelled, Stars)>,
    firsts: Vec<usize>,
}

fn typedefs(alloc: Global, declarations: &[Declaration]) -> Result<FirstTypedefs, AllocError>
    ensures typedefs { IfOk result (λ made. made.table ≡ values_from as_typedef [] declarations.now) }
    ensures firsts { IfOk result (λ made. AreFirsts declarations.now made.table made.firsts.items) }
{
    let mut table = Table::new(alloc);
    let mut firsts = Vec::new(alloc);
    for (place, declaration) in declarations.iter().enumerate() {
        table = with_typedef(alloc, table, declaration)?;
        note_first(&mut firsts, table.entries().len(), place)?;
    }
    Ok(FirstTypedefs { table, firsts })
}

// Each name of a typedef with the type that has its meaning.
fn type_names(
    alloc: Global,
    typedefs: &Table<(Spelled, Stars)>,
    tags: &Table<()>,
    meant: &[Meant],
) -> Result<Vec<TypedefMeaning>, AllocError>
    requires counted { length meant.now ≡ length typedefs.now }
    ensures names { IfOk result (λ types. map (λ t. t.name) types.items ≡ names_in typedefs.now) }
    ensures named { IfOk result (λ types. AreNamed (names_in tags.now) meant.now types.items) }
{
    let mut types = Vec::new(alloc);
    for (place, entry) in typedefs.entries().iter().enumerate() {
        let name = entry.name.copy(alloc)?;
        let means = resolved_of(alloc, tags, meant[place])?;
        types.push(TypedefMeaning { name, means })?;
    }
    Ok(types)
}

/// What declarations lead to where they are typedefs, and what the names of typedefs mean.
#[derive(Drop)]
struct Meanings {
    targets: Leads,
    meant: Vec<Meant>,
    types: Vec<TypedefMeaning>,
}

fn meanings_of(
    alloc: Global,
    tags: &Table<What>,
    typedefs: &FirstTypedefs,
    declarations: &[Declaration],
    repeated: &[bool],
) -> Result<Meanings, AllocError>
    requires repeated { AreRepeats declarations.now repeated.now }
    requires firsts { AreFirsts declarations.now typedefs.now.table typedefs.now.firsts.items }
    requires tagged { tags.now ≡ values_from as_tag [] declarations.now }
    requires typed { typedefs.now.table ≡ values_from as_typedef [] declarations.now }
    ensures leads { IfOk result (λ m. AreTargets tags.now typedefs.now.table (names_in m.targets.tags) declarations.now m.targets.targets.items) }
    ensures meant { IfOk result (λ m. AreAllMeant declarations.now (names_in m.targets.tags) m.meant.items m.types.items) }
{
    let targets = targets(alloc, tags, &typedefs.table, declarations, repeated)?;
    let links = links(
        alloc,
        &typedefs.table,
        &typedefs.firsts,
        declarations,
        &targets.targets,
    )?;
    let meant = meanings(alloc, &links)?;
    let types = type_names(alloc, &typedefs.table, &targets.tags, &meant)?;
    Ok(Meanings {
        targets,
        meant,
        types,
    })
}

/// The scope of declarations, of which those are marked that are typedefs of the type of the typedef before them.
fn scope_over(
    alloc: Global,
    declarations: Vec<Declaration>,
    repeated: &[bool],
) -> Result<Scope, AllocError>
    requires repeated { AreRepeats declarations.items repeated.now }
    ensures declared { IfOk result (λ s. s.declarations.items ≡ declarations.items) }
    ensures named { IfOk result (λ s. AreTypeNames s.declarations.items s.types.items) }
{
    let tags = tags(alloc, &declarations)?;
    let constants = constants(alloc, &declarations)?;
    let typedefs = typedefs(alloc, &declarations)?;
    let meanings = meanings_of(alloc, &tags, &typedefs, &declarations, repeated)?;
    Ok(Scope {
        declarations,
        types: meanings.types,
        tags,
        constants,
        typedefs: typedefs.table,
        targets: meanings.targets,
        meant: meanings.meant,
    })
}

/// The scope of files. Its only error is out of memory.
pub fn scope_of(alloc: Global, files: &[Items]) -> Result<Scope, AllocError>
    ensures declared { IfOk result (λ s. s.declarations.items ≡ declarations files.now) }
    ensures named { IfOk result (λ s. AreTypeNames s.declarations.items s.types.items) }
{
    let declared = declare_all(alloc, files)?;
    scope_over(alloc, declared.declarations, &declared.repeated)
}

fn more_stars(stars: Stars, more: Stars) -> Stars
    ensures more { result ≡ more_stars stars more }
{
    match (stars, more) {
        (Stars::Zero, more) => more,
        (stars, Stars::Zero) => stars,
        (Stars::One, Stars::One) => Stars::Two,
        _ => Stars::More,
    }
}

/// A meaning with stars after it. Its only error is out of memory.
pub fn with_stars(alloc: Global, means: &Resolved, stars: Stars) -> Result<Resolved, AllocError>
    ensures following { IfOk result (λ r. r ≡ with_stars means.now stars) }
{
    Ok(Resolved {
        base: base_copy(alloc, &means.base)?,
        stars: more_stars(means.stars, stars),
    })
}

impl Scope {
    /// What a type is after stars where no name in it is a typedef's.
    fn plain(&self, alloc: Global, ty: &Spelled, stars: Stars) -> Result<Resolved, AllocError>
        ensures plain { IfOk result (λ r. r ≡ plain_after self.now.declarations.items ty.now stars) }
    {
        Ok(Resolved {
            base: plain(alloc, &self.tags, ty)?,
            stars,
        })
    }

    /// A type after stars with its typedefs followed. Its only error is out of memory.
    #[tactic(auto, unfolding(crate::specs::Meanings::resolved_type))]
    pub fn resolve(&self, alloc: Global, ty: &Spelled, stars: Stars) -> Result<Resolved, AllocError>
        ensures same { IfOk result (λ r. r ≡ resolved_type self.now.declarations.items self.now.types.items ty.now stars) }
    {
        match ty {
            Spelled::Named(word) => match self.typedefs.place(word) {
                None => self.plain(alloc, ty, stars),
                Some(place) => match item_at(&self.types, place) {
                    None => self.plain(alloc, ty, stars),
                    Some(found) => with_stars(alloc, &found.means, stars),
                },
            },
            _ => self.plain(alloc, ty, stars),
        }
    }

    // The meaning of the type of the typedef at a place among the declarations.
    fn meaning_at(&self, place: usize) -> Meant
        ensures means { (d : Declaration) (ty : Spelled) → slice_get self.now.declarations.items place ≡ Some d → type_of d.what ≡ Some ty
            → IsMeant (names_in self.now.targets.tags) result (resolved_type self.now.declarations.items self.now.types.items ty Zero) }
    {
        match item_at(&self.targets.targets, place) {
            None => opaque_meaning(),
            Some(target) => match target {
                Target::End(kind) => Meant {
                    kind: *kind,
                    stars: Stars::Zero,
                },
                Target::Next(next) => match item_at(&self.meant, *next) {
                    None => opaque_meaning(),
                    Some(means) => *means,
                },
            },
        }
    }

    /// Whether the typedefs at two places among the declarations, each with its stars, mean the same.
    pub fn mean_same(&self, a: usize, stars: Stars, b: usize, others: Stars) -> bool
        ensures same { (d e : Declaration) (t u : Spelled) → slice_get self.now.declarations.items a ≡ Some d → type_of d.what ≡ Some t
            → slice_get self.now.declarations.items b ≡ Some e → type_of e.what ≡ Some u
            → result ≡ same_type (means_after stars (resolved_type self.now.declarations.items self.now.types.items t Zero))
            (means_after others (resolved_type self.now.declarations.items self.now.types.items u Zero)) }
    {
        let means = meant_after(stars, self.meaning_at(a));
        let other = meant_after(others, self.meaning_at(b));
        same_meant(means, other)
    }

    /// What a text comes to by all constants. Its only error is out of memory.
    pub fn amount(&self, alloc: Global, text: &[u8]) -> Result<Amount, AllocError>
        ensures amount { IfOk result (λ a. a ≡ amount_of (constant_in self.now.declarations.items) text.now) }
    {
        amount(alloc, self, text)
    }

    /// The constants that are defined, each once, with their first values.
    pub fn constants(&self) -> &[Entry<i64>]
        ensures constants { result.now ≡ values_from as_constant [] self.now.declarations.items }
    {
        self.constants.entries()
    }
}

impl Values for Scope {
    ghost value_of = { λ s. constant_in s.declarations.items };

    fn value(&self, name: &Word) -> Option<i64> {
        self.constants.get(name).copied()
    }
}
