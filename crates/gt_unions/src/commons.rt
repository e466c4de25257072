// The common structure of a union.
ghost use Rattle.std.specs.Prelude.{◌≡◌, ◌++◌, ◌∷◌, [], ◌⊎◌, true, Some, List, IsTrue, IfSome, MatchOption, All, Any};
ghost use Rattle.std.specs.Bool.{Decides};
ghost use Rattle.gt_types.specs.declared.types.TypeId.{TypeId};
ghost use Rattle.gt_types.specs.declared.program.Field.{Field};
ghost use Rattle.gt_types.specs.Contains.{HasStructure};
ghost use Rattle.gt_types.specs.Settled.{Settled};
ghost use Rattle.gt_types.specs.Unions.{may_be_active, BeginsWith, IsCommon};
ghost use Rattle.gt_unions.specs.Beginnings.{active_structure, AreKnown, BeginsIfActive, IsFoundAmong};

use crate::beginnings::begins_with;
use crate::members::{active_structure, itself, may_be_active};
use crate::plain::is_plain;
use gt_types::{Field, Program, Structure, TypeId};

/// The common structure of a union: the plain struct that some member is, and with which each member begins that may be active.
/// None where there is none, as where the structure is a struct. It takes no memory. For each member it takes at most about twice
/// MAX_DEPTH steps; then it looks at the fields of the one structure that it found, and of those inside it, where it is not noted yet
/// whether they are plain.
pub fn common_of(
    program: &Program,
    known: &mut Vec<Option<bool>>,
    structure: &Structure,
) -> Option<TypeId>
    requires settled { Settled program.now }
    requires there { (node : TypeId) × HasStructure program.now node structure.now }
    requires known { AreKnown program.now known.old.items }
    ensures known { AreKnown program.now known.new.items }
    ensures common { MatchOption result ((common : TypeId) → ¬ IsCommon program.now structure.now common) (λ common. IsCommon program.now structure.now common) }
{
    if !structure.is_union {
        return None;
    }
    let Some(common) = candidate(program, structure) else {
        return None;
    };
    if is_common(program, known, structure, common) {
        Some(common)
    } else {
        None
    }
}

// The one structure that can be the common one: that with which the others begin.
fn candidate(program: &Program, structure: &Structure) -> Option<TypeId>
    requires settled { Settled program.now }
    requires there { (node : TypeId) × HasStructure program.now node structure.now }
    ensures member { IfSome result (λ node. Any (λ f. active_structure f ≡ Some node) structure.now.fields) }
    ensures only { (common : TypeId) → IsCommon program.now structure.now common → result ≡ Some common }
{
    let mut found = None;
    for f in structure.fields.as_slice() {
        found = earlier(program, found, f);
    }
    found
}

// What is found among members, one more of which is looked at.
fn earlier(program: &Program, found: Option<TypeId>, f: &Field) -> Option<TypeId>
    requires { Settled program.now }
    ensures member { IfSome result (λ node. (found ≡ Some node) ⊎ (active_structure f.now ≡ Some node)) }
    ensures found { (common : TypeId) (fields : List Field) → BeginsIfActive program.now common f.now → IsFoundAmong program.now common fields found → IsFoundAmong program.now common (fields ++ f.now ∷ []) result }
{
    let Some(node) = active_structure(f) else {
        return found;
    };
    let Some(first) = found else {
        return Some(node);
    };
    if begins_with(program, node, first) {
        Some(first)
    } else {
        Some(node)
    }
}

fn is_common(
    program: &Program,
    known: &mut Vec<Option<bool>>,
    structure: &Structure,
    common: TypeId,
) -> bool
    requires settled { Settled program.now }
    requires known { AreKnown program.now known.old.items }
    requires union { structure.now.is_union ≡ true }
    requires member { Any (λ f. active_structure f ≡ Some common) structure.now.fields }
    ensures known { AreKnown program.now known.new.items }
    ensures common { Decides result (IsCommon program.now structure.now common) }
{
    if !are_begun(program, structure.fields.as_slice(), common) {
        return false;
    }
    is_plain(program, known, common)
}

fn are_begun(program: &Program, fields: &[Field], node: TypeId) -> bool
    requires { Settled program.now }
    ensures { Decides result (All (λ f. IsTrue (may_be_active f.active) → BeginsWith program.now f.ty node) fields.now) }
{
    for f in fields {
        if !is_begun(program, f, node) {
            return false;
        }
    }
    true
}

fn is_begun(program: &Program, f: &Field, node: TypeId) -> bool
    requires { Settled program.now }
    ensures { Decides result (IsTrue (may_be_active f.now.active) → BeginsWith program.now f.now.ty node) }
{
    if !may_be_active(f.active) {
        return true;
    }
    match itself(&f.ty) {
        Some(outer) => begins_with(program, outer, node),
        None => false,
    }
}
