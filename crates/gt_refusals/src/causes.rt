// The refusals of each command, in their order.
ghost use Rattle.std.specs.Prelude.{◌≡◌, IfOk};
ghost use Rattle.gt_refusals.specs.Refusals.{refusals_of};

use gt_script::Command;
use gt_types::List;
use std::alloc::{AllocError, Global};

/// What a refusal of a command comes from.
#[derive(Clone, Copy, Debug, PartialEq, Eq)]
pub enum Cause {
    /// The variable, or the one that is the value, is not bound: `Unbound`.
    UnboundVariable,
    /// The type names no structures, or for `array` no elements that may be made: `NoType`.
    UnknownType,
    /// The number of elements is negative: `OutOfRange`.
    NegativeNumber,
    /// The block would need more bytes than a block may have: `TooLarge`.
    TooManyBytes,
    /// The block, or the value that is set, breaks a rule of shapes: `Shape`.
    WrongShape,
    /// As many variables are bound as may be: `TooManyVars`.
    VariableTooMany,
    /// There is no room for the block: `Full`.
    NoRoom,
    /// The path leads nowhere: `Unbound`, `NoField`, `WrongType`, `BadIndex`, `Inactive` or `NullStep`, whichever its first
    /// step that does not lead on meets.
    RefusedPath,
    /// The path leads to a pointer of a common structure, and no member of the union is active: `Inactive`.
    IdlePointer,
    /// The path leads to no leaf, or the value does not suit it: `WrongType`.
    WrongPlace,
    /// The number is beyond the range of its place: `OutOfRange`.
    NumberBeyond,
    /// No cache has this name: `NoCache`.
    UnknownCache,
    /// The variable of the key is not bound, or its object is no key of the cache: `Unbound` or `WrongType`.
    RefusedKey,
    /// The variable of the value is not bound, or its object is no value of the cache: `Unbound` or `WrongType`.
    RefusedValue,
    /// The caches have as many pairs as they may, and the key has none: `TooLarge`.
    PairTooMany,
}

// The row of each command that may be refused, by the name of its command.
const NEW: [Cause; 6] = [
    Cause::UnknownType,
    Cause::NegativeNumber,
    Cause::TooManyBytes,
    Cause::WrongShape,
    Cause::VariableTooMany,
    Cause::NoRoom,
];

const ARRAY: [Cause; 6] = [
    Cause::UnknownType,
    Cause::NegativeNumber,
    Cause::WrongShape,
    Cause::TooManyBytes,
    Cause::VariableTooMany,
    Cause::NoRoom,
];

const TEXT: [Cause; 3] = [Cause::TooManyBytes, Cause::VariableTooMany, Cause::NoRoom];

const BLOCK: [Cause; 4] = [
    Cause::NegativeNumber,
    Cause::TooManyBytes,
    Cause::VariableTooMany,
    Cause::NoRoom,
];

const SET: [Cause; 6] = [
    Cause::UnboundVariable,
    Cause::RefusedPath,
    Cause::IdlePointer,
    Cause::WrongPlace,
    Cause::NumberBeyond,
    Cause::WrongShape,
];

const GET: [Cause; 3] = [
    Cause::RefusedPath,
    Cause::WrongPlace,
    Cause::VariableTooMany,
];

const DROP: [Cause; 1] = [Cause::UnboundVariable];

const PRINT: [Cause; 1] = [Cause::RefusedPath];

const PUT: [Cause; 4] = [
    Cause::UnknownCache,
    Cause::RefusedKey,
    Cause::RefusedValue,
    Cause::PairTooMany,
];

const FIND: [Cause; 2] = [Cause::UnknownCache, Cause::RefusedKey];

/// The causes for which a command is refused, from the one that is looked for first. A command that is never refused has none,
/// and so far neither have `save` and `load`. It fails only if memory runs out.
pub fn refusals(alloc: Global, command: &Command) -> Result<List<Cause>, AllocError>
    ensures row { IfOk result (λ row. row ≡ refusals_of command.now) }
{
    match command {
        Command::New { .. } => row(alloc, &NEW),
        Command::Array { .. } => row(alloc, &ARRAY),
        Command::Text { .. } => row(alloc, &TEXT),
        Command::Block { .. } => row(alloc, &BLOCK),
        Command::Set { .. } => row(alloc, &SET),
        Command::Get { .. } => row(alloc, &GET),
        Command::Drop { .. } => row(alloc, &DROP),
        Command::Print { .. } => row(alloc, &PRINT),
        Command::Put { .. } => row(alloc, &PUT),
        Command::Find { .. } => row(alloc, &FIND),
        _ => Ok(List::new(alloc)),
    }
}

fn row(alloc: Global, causes: &[Cause]) -> Result<List<Cause>, AllocError>
    ensures { IfOk result (λ row. row ≡ causes.now) }
{
    Ok(List::of(Vec::from_slice(alloc, causes)?))
}
