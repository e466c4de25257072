// Copies of types.
ghost use Rattle.std.specs.Prelude.{◌≡◌, IfOk};

use gt_drafts::BaseType;
use gt_types::Copied;
use std::alloc::{AllocError, Global};

/// A copy of what a type is after its stars.
pub fn base_copy(alloc: Global, base: &BaseType) -> Result<BaseType, AllocError>
    ensures same { IfOk result (λ made. made ≡ base.now) }
{
    match base {
        BaseType::Number { scalar, is_char } => Ok(BaseType::Number {
            scalar: *scalar,
            is_char: *is_char,
        }),
        BaseType::Float => Ok(BaseType::Float),
        BaseType::Double => Ok(BaseType::Double),
        BaseType::Sizeless => Ok(BaseType::Sizeless),
        BaseType::Structure(id) => Ok(BaseType::Structure(*id)),
        BaseType::Undefined { keyword, tag } => Ok(BaseType::Undefined {
            keyword: *keyword,
            tag: tag.copy(alloc)?,
        }),
        BaseType::Unknown => Ok(BaseType::Unknown),
    }
}
