//! The numbers of which the definitions speak, each as it is, and that one refusal comes first. The calls do nothing: their
//! clauses are laws.
ghost use Rattle.std.specs.Prelude.{◌≡◌, ℕ, List, Some};
ghost use Rattle.gt_types.specs.declared.limits.TheConstants.{MAX_MIN_EXPAND, MAX_MIN_HEAPSIZE, MAX_HEADERS};
ghost use Rattle.gt_words.specs.declared.TheConstants.{DEFAULT_PAGES, DEFAULT_MIN_EXPAND, DEFAULT_MIN_HEAPSIZE, MAX_GENERATED, MAX_GENERATED_DIGITS};
ghost use Rattle.gt_front.specs.declared.TheConstants.{MAX_HEADER_BYTES, MAX_SCRIPT_BYTES, SCRIPT_SYNTAX, SCRIPT_TOO_LONG};
ghost use Rattle.gt_space.specs.declared.TheConstants.{PAGE_BYTES, HEAP_START, MAX_STATICS, MIN_PAGES, MAX_PAGES};
ghost use Rattle.gt_script.specs.declared.stop.TheConstants.{MAX_COMMANDS};
ghost use Rattle.gt_graph.specs.Good.{MAX_PAIRS};
ghost use Rattle.gt_io.specs.Held.{Held};
ghost use Rattle.gt_space.specs.Range.{Range};
ghost use Rattle.gt_front.specs.Texts.{Texts};
ghost use Rattle.gt_next.specs.declared.TheConstants.{MAX_ALLOCATED, MAX_VARIABLES};
ghost use Rattle.gt_run.specs.Comes.{IsRefusedFirst, IsTold};
ghost use Rattle.gt_run.specs.Runs.{Runs};

use gt_front::Refusal;
use gt_next::Answer;

/// The ranges and defaults of the arguments, the limits of files in bytes, the numbers of the faults of a script, where the
/// pages begin, how large they are and how many a space has, how large the static record may be, how many variables may be
/// bound and how many pairs caches may have, and the limits of a good state.
pub fn numbers()
    ensures pages { (MIN_PAGES ≡ 16) × (MAX_PAGES ≡ 16384) × (DEFAULT_PAGES ≡ 4096) }
    ensures min_expand { (MAX_MIN_EXPAND ≡ 1000) × (DEFAULT_MIN_EXPAND ≡ 30) }
    ensures min_heapsize { (MAX_MIN_HEAPSIZE ≡ 1048576) × (DEFAULT_MIN_HEAPSIZE ≡ 4096) }
    ensures generated { (MAX_GENERATED ≡ 100000) × (MAX_GENERATED_DIGITS ≡ 6) }
    ensures headers { MAX_HEADERS ≡ 64 }
    ensures files { (MAX_HEADER_BYTES ≡ 1048576) × (MAX_SCRIPT_BYTES ≡ 33554432) }
    ensures faults { (SCRIPT_SYNTAX ≡ 25) × (SCRIPT_TOO_LONG ≡ 26) }
    ensures commands { MAX_COMMANDS ≡ 1000000 }
    ensures space { (HEAP_START ≡ 268435456) × (PAGE_BYTES ≡ 4096) × (MAX_STATICS ≡ 1048576) }
    ensures variables { MAX_VARIABLES ≡ 65536 }
    ensures pairs { MAX_PAIRS ≡ 1048576 }
    ensures allocated { MAX_ALLOCATED ≡ 67108864 }
{}

/// With the contents of the files fixed, at most one refusal comes first, other than read faults, which no content decides;
/// and if there is one, no command runs.
pub fn one_refusal()
    ensures refusal { (words : List (List ℕ)) (held : Held) (texts others : Texts) (refusal other : Refusal) → IsRefusedFirst words (Some held) texts refusal → IsRefusedFirst words (Some held) others other → IsTold refusal → IsTold other → refusal ≡ other }
    ensures no_run { (words : List (List ℕ)) (held : Held) (texts : Texts) (refusal : Refusal) (answers : List Answer) (range : Range) → IsRefusedFirst words (Some held) texts refusal → IsTold refusal → Runs words (Some held) answers range → ⊥ }
{}
