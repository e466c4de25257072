// What types are by numbers alone.
ghost use Rattle.std.specs.Prelude.{◌≡◌, ◌&&◌, IfOk};
ghost use Rattle.gt_drafts.specs.Sameness.{same_stars};
ghost use Rattle.gt_drafts.specs.declared.types.BaseType.{BaseType};
ghost use Rattle.gt_drafts.specs.declared.types.Resolved.{Resolved};
ghost use Rattle.gt_scope.specs.Kinds.{is_kept, unkept, meant_after, names_in, HasNumber, Keeps, IsOfKind, IsMeant, same_kind};

use crate::typedefs::item_at;
use gt_drafts::{BaseType, Resolved, same_bool, same_keyword, same_scalar, same_stars};
use gt_items::{Keyword, Stars};
use gt_names::Table;
use gt_types::{Copied, Scalar, Word};
use std::alloc::{AllocError, Global};

/// What a type is after its stars. A tag that is not defined is its number among such tags.
#[derive(Clone, Copy, Debug)]
pub enum Kind {
    Number { scalar: Scalar, is_char: bool },
    Float,
    Double,
    Sizeless,
    Structure(usize),
    Undefined { keyword: Keyword, tag: usize },
    Unknown,
}

/// A kind with the stars after it.
#[derive(Clone, Copy, Debug)]
pub struct Meant {
    pub kind: Kind,
    pub stars: Stars,
}

/// The meaning of an opaque name.
pub fn opaque_meaning() -> Meant
    ensures opaque { result ≡ unkept }
{
    Meant {
        kind: Kind::Sizeless,
        stars: Stars::Zero,
    }
}

fn is_kept(kind: Kind) -> bool
    ensures kept { result ≡ is_kept kind }
{
    match kind {
        Kind::Number { .. } | Kind::Structure(_) => true,
        Kind::Undefined { keyword, .. } => !matches!(keyword, Keyword::Enum),
        Kind::Float | Kind::Double | Kind::Sizeless | Kind::Unknown => false,
    }
}

/// What a typedef means of something with this meaning, after stars.
#[tactic(auto, unfolding(crate::specs::Kinds::kept_after))]
pub fn meant_after(stars: Stars, means: Meant) -> Meant
    ensures means { result ≡ meant_after stars means }
{
    let kept = match stars {
        Stars::Zero => true,
        Stars::One => matches!(means.stars, Stars::Zero),
        _ => false,
    };
    if !kept || !is_kept(means.kind) {
        return opaque_meaning();
    }
    match stars {
        Stars::Zero => means,
        _ => Meant {
            kind: means.kind,
            stars: Stars::One,
        },
    }
}

// The number of a tag among tags, to which it is added where it is new.
fn number_tag(alloc: Global, tags: Table<()>, tag: &Word) -> Result<(Table<()>, usize), AllocError>
    ensures number { IfOk result (λ r. HasNumber (names_in r.0) tag.now r.1) }
    ensures kept { IfOk result (λ r. Keeps (names_in tags) (names_in r.0)) }
{
    if let Some(number) = tags.place(tag) {
        return Ok((tags, number));
    }
    let number = tags.entries().len();
    Ok((tags.with(alloc, tag, ())?, number))
}

/// The kind of a type, with the undefined tags so far.
pub fn kind_of(
    alloc: Global,
    tags: Table<()>,
    base: &BaseType,
) -> Result<(Table<()>, Kind), AllocError>
    ensures kind { IfOk result (λ r. IsOfKind (names_in r.0) r.1 base.now) }
    ensures kept { IfOk result (λ r. Keeps (names_in tags) (names_in r.0)) }
{
    match base {
        BaseType::Number { scalar, is_char } => Ok((
            tags,
            Kind::Number {
                scalar: *scalar,
                is_char: *is_char,
            },
        )),
        BaseType::Float => Ok((tags, Kind::Float)),
        BaseType::Double => Ok((tags, Kind::Double)),
        BaseType::Sizeless => Ok((tags, Kind::Sizeless)),
        BaseType::Structure(id) => Ok((tags, Kind::Structure(*id))),
        BaseType::Undefined { keyword, tag } => {
            let (tags, tag) = number_tag(alloc, tags, tag)?;
            Ok((
                tags,
                Kind::Undefined {
                    keyword: *keyword,
                    tag,
                },
            ))
        }
        BaseType::Unknown => Ok((tags, Kind::Unknown)),
    }
}

// The type of a kind. A number of no tag is of no type.
fn base_of(alloc: Global, tags: &Table<()>, kind: Kind) -> Result<BaseType, AllocError>
    ensures base { IfOk result (λ b. (other : BaseType) → IsOfKind (names_in tags.now) kind other → b ≡ other) }
{
    match kind {
        Kind::Number { scalar, is_char } => Ok(BaseType::Number { scalar, is_char }),
        Kind::Float => Ok(BaseType::Float),
        Kind::Double => Ok(BaseType::Double),
        Kind::Sizeless => Ok(BaseType::Sizeless),
        Kind::Structure(id) => Ok(BaseType::Structure(id)),
        Kind::Undefined { keyword, tag } => match item_at(tags.entries(), tag) {
            None => Ok(BaseType::Unknown),
            Some(entry) => Ok(BaseType::Undefined {
                keyword,
                tag: entry.name.copy(alloc)?,
            }),
        },
        Kind::Unknown => Ok(BaseType::Unknown),
    }
}

/// The type that has a meaning.
pub fn resolved_of(alloc: Global, tags: &Table<()>, m: Meant) -> Result<Resolved, AllocError>
    ensures resolved { IfOk result (λ r. (other : Resolved) → IsMeant (names_in tags.now) m other → r ≡ other) }
{
    Ok(Resolved {
        base: base_of(alloc, tags, m.kind)?,
        stars: m.stars,
    })
}

fn same_kind(a: Kind, b: Kind) -> bool
    ensures same { result ≡ same_kind a b }
{
    match a {
        Kind::Number { scalar, is_char } => match b {
            Kind::Number {
                scalar: other,
                is_char: char,
            } => same_scalar(scalar, other) && same_bool(is_char, char),
            _ => false,
        },
        Kind::Structure(id) => match b {
            Kind::Structure(other) => id == other,
            _ => false,
        },
        Kind::Undefined { keyword, tag } => match b {
            Kind::Undefined {
                keyword: other,
                tag: number,
            } => same_keyword(keyword, other) && tag == number,
            _ => false,
        },
        Kind::Float => matches!(b, Kind::Float),
        Kind::Double => matches!(b, Kind::Double),
        Kind::Sizeless => matches!(b, Kind::Sizeless),
        Kind::Unknown => matches!(b, Kind::Unknown),
    }
}

/// Whether two meanings are the same.
pub fn same_meant(a: Meant, b: Meant) -> bool
    ensures same { result ≡ (same_kind a.kind b.kind && same_stars a.stars b.stars) }
{
    same_kind(a.kind, b.kind) && same_stars(a.stars, b.stars)
}
