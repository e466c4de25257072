// The values around a part, as expressions read them.
ghost use Rattle.std.specs.Prelude.{◌≡◌};
ghost use Rattle.gt_tree.specs.Scopes.{inside, base_of, eval_in};
ghost use Rattle.gt_tree.specs.Fits.{desc_value};
ghost use Rattle.gt_value.specs.Values.{tree_of};
ghost use Rattle.gt_fit.specs.Scoping.{held_of, scope_of};

use crate::checks::Checking;
use crate::paths::{item, number_at, read_path};
use gt_types::{Base, Expr, Reader, Ty, TypeId, Word, eval};
use gt_value::{BlockNames, Value};

/// A structure and its value.
#[derive(Clone, Copy)]
pub struct HeldAt<'a> {
    pub id: TypeId,
    pub value: &'a Value,
}

/// The structures around a part, where there are such, and the values of the roots.
#[derive(Clone, Copy)]
pub struct Within<'a> {
    pub here: Option<HeldAt<'a>>,
    pub outer: Option<HeldAt<'a>>,
    pub outermost: Option<HeldAt<'a>>,
    pub roots: &'a [Value],
}

impl<'a> Within<'a> {
    /// What is around the parts of a structure.
    pub fn inside(&self, id: TypeId, value: &'a Value) -> Within<'a>
        ensures { scope_of result ≡ inside (scope_of self.now) id (tree_of value.now) }
    {
        let here = Some(HeldAt { id, value });
        Within {
            here,
            outer: self.here,
            outermost: match self.outermost {
                Some(at) => Some(at),
                None => here,
            },
            roots: self.roots,
        }
    }
}

// The structure at which a path begins.
fn base<'a>(within: &Within<'a>, base: &Base) -> Option<HeldAt<'a>>
    ensures { held_of result ≡ base_of (scope_of within.now) base.now }
{
    match base {
        Base::Here => within.here,
        Base::Outer => within.outer,
        Base::Outermost => within.outermost,
    }
}

// What expressions read of the values around a part.
#[derive(Clone, Copy)]
struct Looking<'a, N: BlockNames> {
    on: &'a Checking<'a, N>,
    within: &'a Within<'a>,
}

impl<N: BlockNames> Reader for Looking<'_, N> {
    ghost use Rattle.gt_tree.specs.Scopes.{leaf_in, root_in};
    ghost use Rattle.gt_fit.specs.Scoping.{scope_of};

    ghost leaf_of = { λ r. leaf_in r.on.now.program.now (scope_of r.within.now) };

    ghost root_of = { λ r. root_in (scope_of r.within.now) };

    fn leaf(&self, base: &Base, steps: &[Word]) -> Option<i64> {
        let at = crate::scoping::base(self.within, base)?;
        let ty = Ty::Node {
            id: at.id,
            desc: None,
        };
        read_path(self.on.program, self.on.layouts, steps, &ty, at.value)
    }

    fn root(&self, i: u32) -> Option<i64> {
        let value = item(self.within.roots, i as usize)?;
        number_at(value)
    }
}

/// The value of an expression where it stands.
pub fn eval_in<N: BlockNames>(on: &Checking<N>, e: &Expr, within: &Within) -> Option<i64>
    ensures { result ≡ eval_in on.now.program.now (scope_of within.now) e.now }
{
    eval(e, &Looking { on, within })
}

/// The value that says which member of a union is active. None where there is no `desc`.
pub fn desc_in<N: BlockNames>(on: &Checking<N>, desc: &Option<Expr>, within: &Within) -> Option<i64>
    ensures { result ≡ desc_value on.now.program.now (scope_of within.now) desc.now }
{
    match desc {
        None => None,
        Some(e) => eval_in(on, e, within),
    }
}
