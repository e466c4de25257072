//! What follows from the canonical text. This call does nothing: its clause is a law.
ghost use Rattle.std.specs.Prelude.{◌≡◌};
ghost use Rattle.gt_types.specs.declared.program.Program.{Program};
ghost use Rattle.gt_types.specs.Settled.{Settled};
ghost use Rattle.gt_canon.specs.Canon.{canon_of};

/// Programs that headers can declare have the same structures, roots and caches where their canonical texts are the same. Type words are
/// not in the text.
pub fn equal_texts_mean_equal_programs()
    ensures { (p q : Program) → Settled p → Settled q → canon_of p ≡ canon_of q → (p.structures ≡ q.structures) × (p.roots ≡ q.roots) × (p.caches ≡ q.caches) }
{}
