// A number by which equal rows are found: it is made of all numbers in them, so that others seldom have the same.
ghost use Rattle.std.specs.Prelude.{◌≡◌};
ghost use Rattle.gt_alike.specs.Prints.{mix, flag_number, chain_number, origin_number, leaf_print, leaves_print, tree_print, expr_print, count_print, active_print, row_print, arm_print, arms_print, rows_print};

use gt_types::{Active, Base, Expr};
use gt_walk::{Arm, Count, Origin, RowExpr, RowLeaf, WalkRow};

// An odd number whose bits are spread.
const FACTOR: u64 = 0x9e37_79b9_7f4a_7c15;

// A number with one more mixed into it.
#[tactic(auto, unfolding(crate::specs::Prints::mix))]
fn mix(sum: u64, number: u64) -> u64
    ensures { result ≡ mix sum number }
{
    sum.wrapping_add(number).wrapping_mul(FACTOR)
}

fn flag_number(flag: bool) -> u64
    ensures { result ≡ flag_number flag }
{
    if flag { 1 } else { 0 }
}

fn chain_number(chain: Option<u32>) -> u64
    ensures { result ≡ chain_number chain }
{
    match chain {
        Some(offset) => offset as u64 + 1,
        None => 0,
    }
}

fn origin_number(origin: Origin) -> u64
    ensures { result ≡ origin_number origin }
{
    match origin {
        Origin::Inside(Base::Here) => 0,
        Origin::Inside(Base::Outer) => 1,
        Origin::Inside(Base::Outermost) => 2,
        Origin::Zero => 3,
    }
}

fn leaf_print(leaf: &RowLeaf) -> u64
    ensures { result ≡ leaf_print leaf.now }
{
    let place = mix(
        mix(origin_number(leaf.origin), leaf.offset as u64),
        leaf.bit as u64,
    );
    mix(mix(place, flag_number(leaf.signed)), leaf.width as u64)
}

// The numbers that an expression reads.
fn leaves_print(sum: u64, leaves: &[RowLeaf]) -> u64
    ensures { result ≡ leaves_print sum leaves.now }
{
    let mut all = sum;
    for leaf in leaves {
        all = mix(all, leaf_print(leaf));
    }
    all
}

// The numbers in an expression.
fn tree_print(e: &Expr) -> u64
    ensures { result ≡ tree_print e.now }
{
    match e {
        Expr::Int(value) => mix(1, value.unsigned_abs()),
        Expr::Path { .. } => 2,
        Expr::Root(place) => mix(3, *place as u64),
        Expr::One { a, .. } => mix(4, tree_print(a.get())),
        Expr::Two { a, b, .. } => mix(mix(5, tree_print(a.get())), tree_print(b.get())),
        Expr::Cond { test, yes, no } => {
            let both = mix(tree_print(yes.get()), tree_print(no.get()));
            mix(mix(6, tree_print(test.get())), both)
        }
    }
}

fn expr_print(e: &RowExpr) -> u64
    ensures { result ≡ expr_print e.now }
{
    leaves_print(tree_print(&e.expr), e.leaves.as_slice())
}

fn count_print(count: &Count) -> u64
    ensures { result ≡ count_print count.now }
{
    match count {
        Count::Fixed(n) => mix(1, *n as u64),
        Count::Length(e) => mix(2, expr_print(e)),
    }
}

fn active_print(active: Active) -> u64
    ensures { result ≡ active_print active }
{
    match active {
        Active::Always => 1,
        Active::Tag(tag) => mix(2, tag.unsigned_abs()),
        Active::Other => 3,
        Active::Never => 4,
    }
}

#[cycle(prints)]
fn row_print(row: &WalkRow) -> u64
    ensures { result ≡ row_print row.now }
{
    match row {
        WalkRow::Note { size, chain } => mix(mix(1, *size as u64), chain_number(*chain)),
        WalkRow::Ptr {
            offset,
            walk,
            count,
            reorder,
        } => {
            let to = mix(mix(2, *offset as u64), *walk as u64);
            mix(mix(to, count_print(count)), flag_number(*reorder))
        }
        WalkRow::Sub { offset, walk } => mix(mix(3, *offset as u64), *walk as u64),
        WalkRow::Rep {
            offset,
            n,
            size,
            elem,
        } => {
            let many = mix(mix(4, *offset as u64), *n as u64);
            mix(mix(many, *size as u64), row_print(elem.get()))
        }
        WalkRow::Tail {
            offset,
            len,
            size,
            elem,
        } => {
            let many = mix(mix(5, *offset as u64), expr_print(len));
            mix(mix(many, *size as u64), row_print(elem.get()))
        }
        WalkRow::Switch { desc, arms } => arms_print(mix(6, expr_print(desc)), arms),
    }
}

#[cycle(prints)]
fn arm_print(arm: &Arm) -> u64
    ensures { result ≡ arm_print arm.now }
{
    match &arm.row {
        Some(row) => mix(active_print(arm.active), row_print(row.get())),
        None => active_print(arm.active),
    }
}

#[cycle(prints)]
fn arms_print(sum: u64, arms: &[Arm]) -> u64
    ensures { result ≡ arms_print sum arms.now }
{
    let mut all = sum;
    for arm in arms {
        all = mix(all, arm_print(arm));
    }
    all
}

/// A number for rows. Equal rows have the same.
pub fn print_of(rows: &[WalkRow]) -> u64
    ensures print { result ≡ rows_print rows.now }
{
    let mut all = 0;
    for row in rows {
        all = mix(all, row_print(row));
    }
    all
}
