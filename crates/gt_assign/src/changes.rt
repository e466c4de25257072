// What becomes of a value in which a leaf was replaced. It is decided while the value is read; then its parts are moved.
ghost use Rattle.std.specs.Prelude.{◌≡◌, IfOk, OnOk, ℕ, Option, true, [], map};
ghost use Rattle.gt_tree.specs.Trees.{Tree, Trees, Rec, Alt, Row, And, count, tree_at};
ghost use Rattle.gt_value.specs.Values.{trees, tree_of};
ghost use Rattle.gt_assign.specs.declared.changes.Change.TheVariants.{Kept};
ghost use Rattle.gt_assign.specs.Changes.{changed, parts_changed, or_null, IsNext};

use crate::leaves::without_pointers;
use gt_types::Boxed;
use gt_value::Value;
use std::alloc::{AllocError, Global};

/// What becomes of a value.
#[derive(Drop)]
pub enum Change {
    /// It stays as it is.
    Kept,
    /// It becomes this value.
    New(Value),
    /// So many of its first parts stay, and then each becomes what its change says. The parts after them go.
    Parts {
        kept: usize,
        changes: Vec<Change>,
    },
    /// Its pointers become null, and the rest of it stays.
    Bare,
    /// It is a union. This member is active then, or none, and what is there becomes what the change says.
    There {
        member: Option<u32>,
        change: Boxed<Change>,
    },
    /// It is a struct, and becomes what this says of its first field. Its other fields go.
    OfFirst(Boxed<Change>),
    /// It becomes a struct: what the change says of it is the first field, and these are the other fields.
    Begins {
        first: Boxed<Change>,
        rest: Vec<Value>,
    },
}

impl Change {
    /// What a value becomes. The parts that stay are moved.
    #[cycle(applying)]
    pub fn apply(self, alloc: Global, value: Value) -> Result<Value, AllocError>
        ensures { IfOk result (λ v. tree_of v ≡ changed self (tree_of value)) }
    {
        match self {
            Change::Kept => Ok(value),
            Change::New(new) => Ok(new),
            Change::Parts { kept, changes } => match value {
                Value::Rec(parts) => Ok(Value::Rec(apply_all(changes, alloc, parts, kept)?)),
                Value::Row(parts) => Ok(Value::Row(apply_all(changes, alloc, parts, kept)?)),
                other => Ok(other),
            },
            Change::Bare => without_pointers(alloc, value),
            Change::There { member, change } => match value {
                Value::Alt { value: there, .. } => {
                    let made = change.into_inner().apply(alloc, there.into_inner())?;
                    Ok(Value::Alt {
                        member,
                        value: Boxed::new(alloc, made)?,
                    })
                }
                other => Ok(other),
            },
            Change::OfFirst(change) => match value {
                Value::Rec(parts) => change.into_inner().apply(alloc, first_of(parts)),
                other => Ok(other),
            },
            Change::Begins { first, rest } => {
                let made = first.into_inner().apply(alloc, value)?;
                Ok(Value::Rec(before(made, rest)?))
            }
        }
    }

    /// The change of a union of which this member stays active, by that of what is there.
    pub fn inside(self, alloc: Global, member: Option<u32>) -> Result<Change, AllocError>
        ensures { IfOk result (λ made. (tree : Tree) → changed made (Alt member tree) ≡ Alt member (changed self tree)) }
    {
        match self {
            Change::Kept => Ok(Change::Kept),
            change => change.there(alloc, member),
        }
    }

    /// The change of a union of which this member becomes active, or none, by that of what is there.
    pub fn there(self, alloc: Global, member: Option<u32>) -> Result<Change, AllocError>
        ensures { IfOk result (λ made. (old : Option ℕ) (tree : Tree) → changed made (Alt old tree) ≡ Alt member (changed self tree)) }
    {
        Ok(Change::There {
            member,
            change: Boxed::new(alloc, self)?,
        })
    }

    fn is_kept(&self) -> bool
        ensures { result ≡ true → self.now ≡ Kept }
    {
        match self {
            Change::Kept => true,
            _ => false,
        }
    }
}

/// What becomes of the parts of a value, as far as it is decided.
#[derive(Drop)]
pub struct Parts {
    len: usize,
    kept: usize,
    changes: Vec<Change>,
}

impl Parts {
    /// Nothing is decided of so many parts.
    pub fn new(alloc: Global, len: usize) -> Parts
        ensures len { result.len ≡ len }
        ensures kept { result.kept ≡ 0 }
        ensures changes { result.changes.items ≡ [] }
    {
        Parts {
            len,
            kept: 0,
            changes: Vec::new(alloc),
        }
    }

    /// Decides on the next part.
    pub fn push(&mut self, change: Change) -> Result<(), AllocError>
        ensures { OnOk result (IsNext self.old change self.new) }
    {
        if self.kept < self.len && self.changes.is_empty() && change.is_kept() {
            self.kept += 1;
            return Ok(());
        }
        self.changes.push(change)?;
        Ok(())
    }

    /// What becomes of the value, where nothing comes after these parts.
    pub fn finish(self) -> Change
        ensures rec { (old : Trees) → count old ≡ self.len → changed result (Rec old) ≡ Rec (parts_changed self.kept (map changed self.changes.items) old) }
        ensures row { (old : Trees) → count old ≡ self.len → changed result (Row old) ≡ Row (parts_changed self.kept (map changed self.changes.items) old) }
    {
        if self.kept == self.len && self.changes.is_empty() {
            Change::Kept
        } else {
            Change::Parts {
                kept: self.kept,
                changes: self.changes,
            }
        }
    }
}

// The first field of a struct, or null where it has none.
fn first_of(parts: Vec<Value>) -> Value
    ensures { tree_of result ≡ or_null (tree_at (trees (map tree_of parts.items)) 0) }
{
    parts.into_iter().next().unwrap_or(Value::Null)
}

// The fields of a struct, by the first of them and the others.
fn before(first: Value, mut rest: Vec<Value>) -> Result<Vec<Value>, AllocError>
    ensures { IfOk result (λ made. trees (map tree_of made.items) ≡ And (tree_of first) (trees (map tree_of rest.items))) }
{
    rest.insert(0, first)?;
    Ok(rest)
}

// What the parts of a value become.
#[cycle(applying)]
fn apply_all(
    changes: Vec<Change>,
    alloc: Global,
    mut parts: Vec<Value>,
    kept: usize,
) -> Result<Vec<Value>, AllocError>
    ensures { IfOk result (λ made. trees (map tree_of made.items) ≡ parts_changed kept (map changed changes.items) (trees (map tree_of parts.items))) }
{
    let place = kept.min(parts.len());
    let mut olds = parts.split_off(place)?.into_iter();
    for change in changes {
        let old = olds.next().unwrap_or(Value::Null);
        parts.push(change.apply(alloc, old)?)?;
    }
    Ok(parts)
}
