// Trees of expressions, with a bracket round each operation.
ghost use Rattle.std.specs.Prelude.{◌+◌, ◌<◌, ◌^◌, length};

use gt_expr::{RawExpr, read};
use gt_types::{Base, Op, Stop};
use std::alloc::{AllocError, Global};

/// What a text is read as, where it stands at byte 7 of file 3: its tree, or its fault with file and place.
pub fn answer(alloc: Global, text: &[u8]) -> Result<String, AllocError>
    requires { 7 + length text.now < 2 ^ 32 }
{
    match read(alloc, 3, 7, text) {
        Ok(tree) => tree_text(alloc, &tree),
        Err(Stop::At(fault)) => format!(in alloc;
            "{} in {} at {}",
            fault.number, fault.file, fault.at
        ),
        Err(Stop::Memory) => Err(AllocError),
    }
}

fn tree_text(alloc: Global, tree: &RawExpr) -> Result<String, AllocError> {
    match tree {
        RawExpr::Int(value) => format!(in alloc; "{value}"),
        RawExpr::Named(name) => format!(in alloc; "{}", name.as_str()),
        RawExpr::Path { base, steps } => {
            let mut path = String::from_str(alloc, base_name(*base))?;
            for step in steps.as_slice() {
                path.push_str(".")?;
                path.push_str(step.as_str())?;
            }
            Ok(path)
        }
        RawExpr::One { op, a } => {
            format!(in alloc; "({} {})", sign(*op), tree_text(alloc, a.get())?)
        }
        RawExpr::Two { op, a, b } => {
            format!(in alloc;
                "({} {} {})",
                tree_text(alloc, a.get())?,
                sign(*op),
                tree_text(alloc, b.get())?
            )
        }
        RawExpr::Cond { test, yes, no } => {
            format!(in alloc;
                "({} ? {} : {})",
                tree_text(alloc, test.get())?,
                tree_text(alloc, yes.get())?,
                tree_text(alloc, no.get())?
            )
        }
    }
}

fn base_name(base: Base) -> &'static str {
    match base {
        Base::Here => "here",
        Base::Outer => "outer",
        Base::Outermost => "outermost",
    }
}

fn sign(op: Op) -> &'static str {
    match op {
        Op::Neg => "neg",
        Op::Not => "not",
        Op::Add => "+",
        Op::Sub => "-",
        Op::Mul => "*",
        Op::Lt => "<",
        Op::Le => "<=",
        Op::Gt => ">",
        Op::Ge => ">=",
        Op::Eq => "==",
        Op::Ne => "!=",
        Op::And => "&&",
        Op::Or => "||",
    }
}
