// Copies of commands.
ghost use Rattle.std.specs.Prelude.{◌≡◌, IfOk};

use crate::{Command, Given, Hop, Line, Route, TypeName};
use gt_types::Copied;
use std::alloc::{AllocError, Global};

impl Copied for Line {
    fn copy(&self, alloc: Global) -> Result<Line, AllocError> {
        Ok(Line {
            quiet: self.quiet,
            command: self.command.copy(alloc)?,
        })
    }
}

impl Copied for TypeName {
    fn copy(&self, alloc: Global) -> Result<TypeName, AllocError> {
        Ok(TypeName {
            name: self.name.copy(alloc)?,
            star: self.star,
        })
    }
}

impl Copied for Route {
    fn copy(&self, alloc: Global) -> Result<Route, AllocError> {
        Ok(Route {
            variable: self.variable,
            name: self.name.copy(alloc)?,
            steps: self.steps.copy(alloc)?,
        })
    }
}

impl Copied for Hop {
    fn copy(&self, alloc: Global) -> Result<Hop, AllocError> {
        match self {
            Hop::Name(name) => Ok(Hop::Name(name.copy(alloc)?)),
            Hop::Index(at) => Ok(Hop::Index(*at)),
        }
    }
}

impl Copied for Given {
    fn copy(&self, alloc: Global) -> Result<Given, AllocError> {
        match self {
            Given::Integer(number) => Ok(Given::Integer(*number)),
            Given::Null => Ok(Given::Null),
            Given::Var(name) => Ok(Given::Var(name.copy(alloc)?)),
        }
    }
}

impl Copied for Command {
    fn copy(&self, alloc: Global) -> Result<Command, AllocError> {
        match self {
            Command::New { var, ty, n } => {
                let (var, ty) = copy_both(alloc, var, ty)?;
                Ok(Command::New { var, ty, n: *n })
            }
            Command::Array { var, ty, n } => {
                let (var, ty) = copy_both(alloc, var, ty)?;
                Ok(Command::Array { var, ty, n: *n })
            }
            Command::Text { var, text } => {
                let (var, text) = copy_both(alloc, var, text)?;
                Ok(Command::Text { var, text })
            }
            Command::Block { var, n } => Ok(Command::Block {
                var: var.copy(alloc)?,
                n: *n,
            }),
            Command::Set { path, value } => {
                let (path, value) = copy_both(alloc, path, value)?;
                Ok(Command::Set { path, value })
            }
            Command::Get { var, path } => {
                let (var, path) = copy_both(alloc, var, path)?;
                Ok(Command::Get { var, path })
            }
            Command::Drop { var } => Ok(Command::Drop {
                var: var.copy(alloc)?,
            }),
            Command::Print { path } => Ok(Command::Print {
                path: path.copy(alloc)?,
            }),
            Command::Put { cache, key, value } => {
                let cache = cache.copy(alloc)?;
                let (key, value) = copy_both(alloc, key, value)?;
                Ok(Command::Put { cache, key, value })
            }
            Command::Find { cache, key } => {
                let (cache, key) = copy_both(alloc, cache, key)?;
                Ok(Command::Find { cache, key })
            }
            Command::Collect => Ok(Command::Collect),
            Command::CollectForce => Ok(Command::CollectForce),
            Command::Save { file, page } => Ok(Command::Save {
                file: file.copy(alloc)?,
                page: *page,
            }),
            Command::Load { file } => Ok(Command::Load {
                file: file.copy(alloc)?,
            }),
            Command::Tables => Ok(Command::Tables),
            Command::Heap => Ok(Command::Heap),
            Command::Stats => Ok(Command::Stats),
        }
    }
}

// Copies of two values of any types.
fn copy_both<A: Copied + Drop, B: Copied + Drop>(
    alloc: Global,
    a: &A,
    b: &B,
) -> Result<(A, B), AllocError>
    ensures first { IfOk result (λ made. made.0 ≡ a.now) }
    ensures second { IfOk result (λ made. made.1 ≡ b.now) }
{
    let a = a.copy(alloc)?;
    let b = b.copy(alloc)?;
    Ok((a, b))
}
