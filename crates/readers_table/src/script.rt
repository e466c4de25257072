// The commands of a script, each in other words.
ghost use Rattle.std.specs.Prelude.{◌<◌, ◌^◌, length};

use gt_script::{Command, Given, Hop, Line, Route, ScriptStop, Steps, TypeName, parse_script};
use gt_types::{Bytes, List};
use std::alloc::{AllocError, Global};

/// The most commands that are written one by one; of more their number is the answer.
const MANY: usize = 1000;

/// What a text says: its commands, or the line that is refused.
pub fn answer(alloc: Global, text: &[u8]) -> Result<String, AllocError>
    requires { length text.now < 2 ^ 32 }
{
    match parse_script(alloc, Bytes::of(alloc, text)?) {
        Ok(lines) if lines.len() > MANY => format!(in alloc; "{} commands", lines.len()),
        Ok(lines) => commands_text(alloc, &lines),
        Err(ScriptStop::ScriptSyntax { line }) => format!(in alloc; "line {line} refused"),
        Err(ScriptStop::ScriptTooLong) => String::from_str(alloc, "too long"),
        Err(ScriptStop::Memory) => Err(AllocError),
    }
}

fn commands_text(alloc: Global, lines: &List<Line>) -> Result<String, AllocError> {
    let mut text = String::new(alloc);
    for line in lines.as_slice() {
        if !text.is_empty() {
            text.push_str("; ")?;
        }
        if line.quiet {
            text.push_str("quietly ")?;
        }
        text.push_str(command_text(alloc, &line.command)?.as_str())?;
    }
    Ok(text)
}

fn command_text(alloc: Global, command: &Command) -> Result<String, AllocError> {
    let text = match command {
        Command::New { var, ty, n: None } => {
            let ty = type_text(alloc, ty)?;
            format!(in alloc; "new {}: {}", var.as_str(), ty.as_str())?
        }
        Command::New {
            var,
            ty,
            n: Some(n),
        } => {
            let ty = type_text(alloc, ty)?;
            format!(in alloc; "new {}: {} with {n}", var.as_str(), ty.as_str())?
        }
        Command::Array { var, ty, n } => {
            let ty = type_text(alloc, ty)?;
            format!(in alloc; "array {}: {n} of {}", var.as_str(), ty.as_str())?
        }
        Command::Text { var, text } => {
            format!(in alloc; "text {}: {:?}", var.as_str(), text.as_slice())?
        }
        Command::Block { var, n } => format!(in alloc; "block {}: {n}", var.as_str())?,
        Command::Set { path, value } => {
            let path = path_text(alloc, path)?;
            let value = value_text(alloc, value)?;
            format!(in alloc; "set {} to {}", path.as_str(), value.as_str())?
        }
        Command::Get { var, path } => {
            let path = path_text(alloc, path)?;
            format!(in alloc; "get {}: {}", var.as_str(), path.as_str())?
        }
        Command::Drop { var } => format!(in alloc; "drop {}", var.as_str())?,
        Command::Print { path } => {
            let path = path_text(alloc, path)?;
            format!(in alloc; "print {}", path.as_str())?
        }
        Command::Put { cache, key, value } => {
            format!(in alloc;
                "put {}: {} to {}",
                cache.as_str(),
                key.as_str(),
                value.as_str()
            )?
        }
        Command::Find { cache, key } => {
            format!(in alloc; "find {}: {}", cache.as_str(), key.as_str())?
        }
        Command::Collect => String::from_str(alloc, "collect")?,
        Command::CollectForce => String::from_str(alloc, "collect by force")?,
        Command::Save { file, page } => format!(in alloc; "save {} at {page}", file.as_str())?,
        Command::Load { file } => format!(in alloc; "load {}", file.as_str())?,
        Command::Tables => String::from_str(alloc, "show the tables")?,
        Command::Heap => String::from_str(alloc, "show the heap")?,
        Command::Stats => String::from_str(alloc, "show the numbers")?,
    };
    Ok(text)
}

fn type_text(alloc: Global, ty: &TypeName) -> Result<String, AllocError> {
    let pointer = if ty.star { "pointer to " } else { "" };
    Ok(format!(in alloc; "{pointer}{}", ty.name.as_str())?)
}

fn value_text(alloc: Global, value: &Given) -> Result<String, AllocError> {
    match value {
        Given::Null => Ok(String::from_str(alloc, "nothing")?),
        Given::Var(name) => Ok(String::from_str(alloc, name.as_str())?),
        Given::Integer(number) => Ok(format!(in alloc; "the number {number}")?),
    }
}

fn path_text(alloc: Global, path: &Route) -> Result<String, AllocError> {
    let start = if path.variable { "variable" } else { "root" };
    let mut text = format!(in alloc; "{start} {}", path.name.as_str())?;
    let mut written = String::new(alloc);
    let mut hops = path.steps.hops();
    while let Some(hop) = hops.take_first(alloc)? {
        match hop {
            Hop::Name(name) => {
                text.push_str(format!(in alloc; ", {}", name.as_str())?.as_str())?;
                written.push_str(format!(in alloc; ".{}", name.as_str())?.as_str())?;
            }
            Hop::Index(at) => {
                text.push_str(format!(in alloc; ", at {at}")?.as_str())?;
                written.push_str(format!(in alloc; "[{at}]")?.as_str())?;
            }
        }
    }
    if !are_steps(alloc, written.as_str(), &path.steps)? {
        text.push_str(", which does not read back")?;
    }
    Ok(text)
}

// Whether a text is these steps.
fn are_steps(alloc: Global, text: &str, steps: &Steps) -> Result<bool, AllocError> {
    match Steps::parse(alloc, text)? {
        Some(read) => Ok(read == *steps),
        None => Ok(false),
    }
}
