// Laws on what names and types come to, for callers to cite.
ghost use Rattle.std.specs.Prelude.{◌≡◌, ◌≤◌, List, All, length};
ghost use Rattle.gt_types.specs.declared.faults.Fault.{Fault};
ghost use Rattle.gt_items.specs.declared.items.Items.{Items};
ghost use Rattle.gt_types.specs.declared.limits.TheConstants.{MAX_STRUCTURES, MAX_FIELDS, MAX_ROOTS, MAX_CACHES};
ghost use Rattle.gt_drafts.specs.declared.draft.Draft.{Draft};
ghost use Rattle.gt_resolve.specs.Resolution.{Resolves, HasFirstFault};

/// What resolves is few enough: structures, fields of each structure, roots and caches.
pub fn few()
    ensures structures { (files : List Items) (draft : Draft) → Resolves files draft → length draft.structures ≤ MAX_STRUCTURES }
    ensures fields { (files : List Items) (draft : Draft) → Resolves files draft → All (λ s. length s.fields ≤ MAX_FIELDS) draft.structures }
    ensures roots { (files : List Items) (draft : Draft) → Resolves files draft → length draft.roots ≤ MAX_ROOTS }
    ensures caches { (files : List Items) (draft : Draft) → Resolves files draft → length draft.caches ≤ MAX_CACHES }
{}

/// No files have both a draft and a first fault, two drafts, or two first faults.
pub fn one_outcome()
    ensures not_both { (files : List Items) (draft : Draft) (fault : Fault) → Resolves files draft → HasFirstFault files fault → ⊥ }
    ensures draft { (files : List Items) (draft other : Draft) → Resolves files draft → Resolves files other → draft ≡ other }
    ensures fault { (files : List Items) (fault other : Fault) → HasFirstFault files fault → HasFirstFault files other → fault ≡ other }
{}

/// The file of a first fault is one of the files, counted from 1.
pub fn fault_file()
    ensures { (files : List Items) (fault : Fault) → HasFirstFault files fault → (1 ≤ fault.file) × (fault.file ≤ length files) }
{}
