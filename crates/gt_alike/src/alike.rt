// Whether rows are equal.
ghost use Rattle.std.specs.Prelude.{◌≡◌};
ghost use Rattle.std.specs.Bool.{Decides};
ghost use Rattle.gt_alike.specs.Alike.{Pairs, IsSameRow, IsSameArm, IsAlike, AreAlike};

use gt_same::Same;
use gt_walk::{Arm, Count, RowExpr, RowLeaf, WalkRow};

fn is_leaf(one: &RowLeaf, other: &RowLeaf) -> bool
    ensures decides { Decides result (one.now ≡ other.now) }
{
    one == other
}

// Whether expressions read the same numbers, one after another.
fn are_leaves(one: &[RowLeaf], other: &[RowLeaf]) -> bool
    ensures decides { Decides result (one.now ≡ other.now) }
{
    let mut here = one;
    let mut there = other;
    'pairs: loop {
        match here {
            [] => return there.is_empty(),
            [first, rest @ ..] => match there {
                [] => return false,
                [second, others @ ..] => {
                    if !is_leaf(first, second) {
                        return false;
                    }
                    here = rest;
                    there = others;
                }
            },
        }
    }
}

fn is_expr(one: &RowExpr, other: &RowExpr) -> bool
    ensures decides { Decides result (one.now ≡ other.now) }
{
    one.expr.is_same(&other.expr) && are_leaves(one.leaves.as_slice(), other.leaves.as_slice())
}

fn is_count(one: &Count, other: &Count) -> bool
    ensures decides { Decides result (one.now ≡ other.now) }
{
    match one {
        Count::Fixed(n) => match other {
            Count::Fixed(number) => n == number,
            _ => false,
        },
        Count::Length(e) => match other {
            Count::Length(length) => is_expr(e, length),
            _ => false,
        },
    }
}

// Whether two rows are equal, in which no row of a union stands.
fn is_row(one: &WalkRow, other: &WalkRow) -> bool
    ensures decides { Decides result (IsSameRow one.now other.now) }
{
    match one {
        WalkRow::Note { size, chain } => match other {
            WalkRow::Note {
                size: bytes,
                chain: next,
            } => size == bytes && chain == next,
            _ => false,
        },
        WalkRow::Ptr {
            offset,
            walk,
            count,
            reorder,
        } => match other {
            WalkRow::Ptr {
                offset: place,
                walk: to,
                count: many,
                reorder: again,
            } => offset == place && walk == to && is_count(count, many) && reorder == again,
            _ => false,
        },
        WalkRow::Sub { offset, walk } => match other {
            WalkRow::Sub {
                offset: place,
                walk: to,
            } => offset == place && walk == to,
            _ => false,
        },
        WalkRow::Rep {
            offset,
            n,
            size,
            elem,
        } => match other {
            WalkRow::Rep {
                offset: place,
                n: many,
                size: bytes,
                elem: each,
            } => { offset == place && n == many && size == bytes && is_row(elem.get(), each.get()) }
            _ => false,
        },
        WalkRow::Tail {
            offset,
            len,
            size,
            elem,
        } => match other {
            WalkRow::Tail {
                offset: place,
                len: many,
                size: bytes,
                elem: each,
            } => {
                offset == place
                    && is_expr(len, many)
                    && size == bytes
                    && is_row(elem.get(), each.get())
            }
            _ => false,
        },
        WalkRow::Switch { .. } => false,
    }
}

// Whether two arms are equal, in which no row of a union stands.
fn is_arm(one: &Arm, other: &Arm) -> bool
    ensures decides { Decides result (IsSameArm one.now other.now) }
{
    if one.active != other.active {
        return false;
    }
    match &one.row {
        None => other.row.is_none(),
        Some(row) => match &other.row {
            None => false,
            Some(same) => is_row(row.get(), same.get()),
        },
    }
}

// The same for the arms of two unions, one after another.
fn are_arms(one: &[Arm], other: &[Arm]) -> bool
    ensures decides { Decides result (Pairs IsSameArm one.now other.now) }
{
    let mut here = one;
    let mut there = other;
    'pairs: loop {
        match here {
            [] => return there.is_empty(),
            [first, rest @ ..] => match there {
                [] => return false,
                [second, others @ ..] => {
                    if !is_arm(first, second) {
                        return false;
                    }
                    here = rest;
                    there = others;
                }
            },
        }
    }
}

// Whether two rows of walks are equal.
fn is_alike(one: &WalkRow, other: &WalkRow) -> bool
    ensures decides { Decides result (IsAlike one.now other.now) }
{
    match one {
        WalkRow::Switch { desc, arms } => match other {
            WalkRow::Switch {
                desc: by,
                arms: members,
            } => is_expr(desc, by) && are_arms(arms, members),
            _ => false,
        },
        _ => is_row(one, other),
    }
}

/// Whether two walks have the same rows in the same order. It takes no memory.
pub fn are_alike(one: &[WalkRow], other: &[WalkRow]) -> bool
    ensures decides { Decides result (AreAlike one.now other.now) }
{
    let mut here = one;
    let mut there = other;
    'pairs: loop {
        match here {
            [] => return there.is_empty(),
            [first, rest @ ..] => match there {
                [] => return false,
                [second, others @ ..] => {
                    if !is_alike(first, second) {
                        return false;
                    }
                    here = rest;
                    there = others;
                }
            },
        }
    }
}
