//! What follows from the words of the contracts. These calls do nothing but call the laws of the layers below, from which their
//! own follow.
ghost use Rattle.std.specs.Prelude.{◌≡◌, ◌≤◌, ℕ, List, length};
ghost use Rattle.gt_types.specs.declared.faults.Fault.{Fault};
ghost use Rattle.gt_types.specs.declared.program.Program.{Program};
ghost use Rattle.gt_types.specs.declared.limits.TheConstants.{MAX_STRUCTURES, MAX_FIELDS, MAX_ROOTS, MAX_CACHES, MAX_DEPTH, MAX_DIMENSIONS, MAX_BOUND, TOO_LARGE};
ghost use Rattle.gt_types.specs.Settled.{Settled};
ghost use Rattle.gt_layout.specs.declared.planes.TheConstants.{MAX_SIZE};
ghost use Rattle.gt_drafts.specs.declared.draft.Draft.{Draft};
ghost use Rattle.gt_headers.specs.Headers.{AreResolved, Declares, IsFirstFault};
ghost use Rattle.gt_lex.specs.declared.faults.TheConstants.{BAD_UTF8, OPEN_COMMENT, OPEN_STRING, BAD_NUMBER};
ghost use Rattle.gt_expr.specs.declared.TheConstants.{BAD_EXPR, EXPR_TOO_LARGE, MAX_PARTS};
ghost use Rattle.gt_search.specs.declared.faults.TheConstants.{UNCLOSED, UNEXPECTED, UNSUPPORTED, BAD_MARKER_PLACE};
ghost use Rattle.gt_markers.specs.declared.TheConstants.{UNKNOWN_OPTION, WRONG_PLACE, MISSING_DESC, DUPLICATE_TAG, BAD_PATH, CHAIN_NOT_OWN_POINTER, UNKNOWN_HOOK, CACHE_SHAPE};
ghost use Rattle.gt_resolve.specs.declared.TheConstants.{REDEFINED, UNDEFINED, BY_VALUE_CYCLE, BAD_BOUND, TOO_MANY, TYPE_TOO_LARGE};

use gt_exists::{each_resolution, each_text};
use gt_layout::laws::one_layout;
use gt_lex::one_answer;
use gt_options::laws::one_settlement;
use gt_search::one_search;
use gt_settled::declared_is_settled;
use gt_sound::{read_is_well_made, resolved_is_sound};

/// Headers declare at most one program and have at most one first fault, and never both. Where names and types are without a fault,
/// it cannot be that there is neither.
pub fn one_outcome()
    ensures program { (texts : List (List ℕ)) (program other : Program) → Declares texts program → Declares texts other → program ≡ other }
    ensures fault { (texts : List (List ℕ)) (fault other : Fault) → IsFirstFault texts fault → IsFirstFault texts other → fault ≡ other }
    ensures no_fault { (texts : List (List ℕ)) (program : Program) (fault : Fault) → Declares texts program → IsFirstFault texts fault → ⊥ }
    ensures resolved { (texts : List (List ℕ)) (draft : Draft) → AreResolved texts draft → ((program : Program) → ¬ Declares texts program) → ((fault : Fault) → ¬ IsFirstFault texts fault) → ⊥ }
{
    one_answer();
    one_search();
    gt_resolve::one_outcome();
    read_is_well_made();
    resolved_is_sound();
    one_settlement();
    declared_is_settled();
    one_layout();
}

/// It cannot be that headers have neither a program nor a first fault.
pub fn some_outcome()
    ensures outcome { (texts : List (List ℕ)) → ((program : Program) → ¬ Declares texts program) → ((fault : Fault) → ¬ IsFirstFault texts fault) → ⊥ }
{
    each_text();
    each_resolution();
    one_outcome();
}

/// The program that headers declare is settled.
pub fn declared_programs_are_settled()
    ensures settled { (texts : List (List ℕ)) (program : Program) → Declares texts program → Settled program }
{}

/// The file of a first fault is one of the texts, counted from 1.
pub fn text_places()
    ensures fault { (texts : List (List ℕ)) (fault : Fault) → IsFirstFault texts fault → (1 ≤ fault.file) × (fault.file ≤ length texts) }
{}

/// The numbers of the faults and the limits, of which the definitions speak by name.
pub fn numbers()
    ensures tokens { (BAD_UTF8 ≡ 1) × (OPEN_COMMENT ≡ 2) × (OPEN_STRING ≡ 3) × (BAD_NUMBER ≡ 4) }
    ensures options { (BAD_EXPR ≡ 5) × (EXPR_TOO_LARGE ≡ 6) }
    ensures items { (UNCLOSED ≡ 7) × (UNEXPECTED ≡ 8) × (UNSUPPORTED ≡ 9) × (BAD_MARKER_PLACE ≡ 10) }
    ensures names { (REDEFINED ≡ 11) × (UNDEFINED ≡ 12) × (BY_VALUE_CYCLE ≡ 13) × (BAD_BOUND ≡ 14) × (TOO_MANY ≡ 15) × (TYPE_TOO_LARGE ≡ 24) }
    ensures markers { (UNKNOWN_OPTION ≡ 16) × (WRONG_PLACE ≡ 17) × (MISSING_DESC ≡ 18) × (DUPLICATE_TAG ≡ 19) × (BAD_PATH ≡ 20) × (CHAIN_NOT_OWN_POINTER ≡ 21) × (UNKNOWN_HOOK ≡ 22) × (CACHE_SHAPE ≡ 23) }
    ensures counts { (MAX_STRUCTURES ≡ 4096) × (MAX_FIELDS ≡ 1024) × (MAX_ROOTS ≡ 4096) × (MAX_CACHES ≡ 64) }
    ensures shapes { (MAX_DEPTH ≡ 32) × (MAX_DIMENSIONS ≡ 4) × (MAX_BOUND ≡ 1048576) × (TOO_LARGE ≡ 1048577) × (MAX_PARTS ≡ 256) }
    ensures layout { MAX_SIZE ≡ 1048576 }
{}
