//! The numbers of which the definitions speak, each as it is. The call does nothing: its clauses are laws.
ghost use Rattle.std.specs.Prelude.{◌≡◌};
ghost use Rattle.gt_types.specs.declared.limits.TheConstants.{MAX_MIN_EXPAND, MAX_MIN_HEAPSIZE};
ghost use Rattle.gt_next.specs.declared.TheConstants.{MAX_ALLOCATED, MAX_BLOCK, MAX_VARIABLES};

/// How many bytes a block may have, how many variables may be bound, and the limits of a good state.
pub fn numbers()
    ensures block { MAX_BLOCK ≡ 1048576 }
    ensures variables { MAX_VARIABLES ≡ 65536 }
    ensures min_expand { MAX_MIN_EXPAND ≡ 1000 }
    ensures min_heapsize { MAX_MIN_HEAPSIZE ≡ 1048576 }
    ensures allocated { MAX_ALLOCATED ≡ 67108864 }
{}
