// What a type is where no name in it is a typedef's.
ghost use Rattle.std.specs.Prelude.{◌≡◌, IfOk};
ghost use Rattle.gt_scope.specs.Meanings.{is_keyword_of, defined_type, tagged_type, type_of_tag};
ghost use Rattle.gt_scope.specs.Chains.{plain_by};
ghost use Rattle.gt_names.specs.Entries.{value_in};

use crate::declaration::What;
use crate::types::Spelled;
use gt_drafts::BaseType;
use gt_items::Keyword;
use gt_names::Table;
use gt_types::{Copied, Scalar, Width, Word};
use std::alloc::{AllocError, Global};

fn is_of(keyword: Keyword, what: &What) -> bool
    ensures keyword { result ≡ is_keyword_of keyword what.now }
{
    match what {
        What::Structure { is_union, .. } => {
            if *is_union {
                matches!(keyword, Keyword::Union)
            } else {
                matches!(keyword, Keyword::Struct)
            }
        }
        What::Enum { .. } => matches!(keyword, Keyword::Enum),
        _ => false,
    }
}

fn defined_type(what: &What) -> BaseType
    ensures defined { result ≡ defined_type what.now }
{
    match what {
        What::Structure { id, .. } => BaseType::Structure(*id),
        What::Enum { is_signed } => BaseType::Number {
            scalar: Scalar::Int {
                width: Width::W4,
                signed: *is_signed,
            },
            is_char: false,
        },
        _ => BaseType::Unknown,
    }
}

fn tagged_type(
    alloc: Global,
    tags: &Table<What>,
    keyword: Keyword,
    tag: &Word,
) -> Result<BaseType, AllocError>
    ensures tagged { IfOk result (λ base. base ≡ tagged_type keyword tag.now (value_in tags.now tag.now)) }
{
    match tags.get(tag) {
        Some(what) if is_of(keyword, what) => Ok(defined_type(what)),
        _ => Ok(BaseType::Undefined {
            keyword,
            tag: tag.copy(alloc)?,
        }),
    }
}

fn type_of(tags: &Table<What>, tag: &Word) -> BaseType
    ensures tag { result ≡ type_of_tag (value_in tags.now tag.now) }
{
    match tags.get(tag) {
        Some(what) => defined_type(what),
        None => BaseType::Unknown,
    }
}

/// What a type is, where a name is looked up among tags alone.
#[tactic(auto, unfolding(crate::specs::Chains::plain_by))]
pub fn plain(alloc: Global, tags: &Table<What>, ty: &Spelled) -> Result<BaseType, AllocError>
    ensures plain { IfOk result (λ base. base ≡ plain_by tags.now ty.now) }
{
    match ty {
        Spelled::Number { scalar, is_char } => Ok(BaseType::Number {
            scalar: *scalar,
            is_char: *is_char,
        }),
        Spelled::Float => Ok(BaseType::Float),
        Spelled::Double => Ok(BaseType::Double),
        Spelled::Sizeless => Ok(BaseType::Sizeless),
        Spelled::Tagged { keyword, tag } => tagged_type(alloc, tags, *keyword, tag),
        Spelled::Named(word) => Ok(type_of(tags, word)),
    }
}
