ghost use Rattle.std.specs.Prelude.{◌≡◌, IfOk, IfErr, MatchOption, Ok, Err};
ghost use Rattle.gt_types.specs.declared.faults.Stop.TheVariants.{At};
ghost use Rattle.gt_expr.specs.declared.raw.RawExpr.{RawExpr};
ghost use Rattle.gt_expr.specs.Expression.{IsExpression, IsTooLarge, HasTree, IsStopped, IsUnlessMemory, fault_at};
ghost use Rattle.gt_expr.specs.Parts.{parts_of};

use crate::part::Part;
use crate::raw::RawExpr;
use crate::reading::tree;
use crate::scanning::next_part;
use crate::unread::Unread;
use crate::{BAD_EXPR, EXPR_TOO_LARGE, MAX_PARTS};
use gt_types::{Fault, Stop};
use std::alloc::{AllocError, Global};

/// The tree of an expression's text:
///
/// ```text
/// cond  := or ["?" cond ":" cond]
/// or    := and {"||" and}
/// and   := eq {"&&" eq}
/// eq    := rel {("==" | "!=") rel}
/// rel   := sum {("<" | "<=" | ">" | ">=") sum}
/// sum   := prod {("+" | "-") prod}
/// prod  := unary {"*" unary}
/// unary := ("!" | "-") unary | INTEGER | NAME | place | "(" cond ")"
/// place := ("%h" | "%1" | "%0" | "(" place ")") {"." NAME}
/// ```
///
/// A name is an identifier, and an integer a literal of C with a value below 2 to the 63. Each part is the longest
/// that fits, and white space may stand between parts. An operator of two operands groups to the left.
///
/// A text with more than 256 parts has fault 6, and any other text that the grammar does not give fault 5; `file` and
/// `at` are the place that the fault names. A text that is not UTF-8 is not in the grammar. `Stop::Memory` says that
/// memory ran out.
pub fn read(alloc: Global, file: u32, at: u32, text: &[u8]) -> Result<RawExpr, Stop>
    // What is read is an expression with this tree.
    ensures tree { IfOk result (λ t. IsExpression text.now t) }
    // A fault says what is wrong with the text.
    ensures stopped { IfErr result (λ stop. IsStopped text.now file at stop) }

    // Each text has its answer, unless memory runs out.
    ensures expression { (t : RawExpr) → IsExpression text.now t → IsUnlessMemory result (Ok t) }
    ensures too_large { IsTooLarge text.now → IsUnlessMemory result (Err (At (fault_at EXPR_TOO_LARGE file at))) }
    ensures bad { ¬ IsTooLarge text.now → ((t : RawExpr) → ¬ HasTree text.now t) → IsUnlessMemory result (Err (At (fault_at BAD_EXPR file at))) }
{
    let Some(parts) = all_parts(alloc, text)? else {
        return Err(fault(EXPR_TOO_LARGE, file, at));
    };
    match tree(alloc, &parts) {
        Ok(tree) => Ok(tree),
        Err(Unread::Memory) => Err(Stop::Memory),
        Err(Unread::NotGiven) => Err(fault(BAD_EXPR, file, at)),
    }
}

fn fault(number: u8, file: u32, at: u32) -> Stop
    ensures { result ≡ At (fault_at number file at) }
{
    Stop::At(Fault { number, file, at })
}

// The parts of a text, or None where there are too many.
fn all_parts(alloc: Global, text: &[u8]) -> Result<Option<Vec<Part>>, AllocError>
    ensures parts { IfOk result (λ found. MatchOption found (IsTooLarge text.now) (λ v. v.items ≡ parts_of text.now)) }
    ensures few { IfOk result (λ found. MatchOption found (IsTooLarge text.now) (λ v. ¬ IsTooLarge text.now)) }
{
    let mut parts = Vec::new(alloc);
    let mut rest = text;
    while parts.len() <= MAX_PARTS {
        let Some((part, after)) = next_part(alloc, rest)? else {
            return Ok(Some(parts));
        };
        parts.push(part)?;
        rest = after;
    }
    Ok(None)
}
