//! The runs of an image.
ghost use Rattle.std.specs.Prelude.{◌≡◌, ◌<◌, ◌≤◌, Contains, IfSome, IsTrue};
ghost use Rattle.gt_pages.specs.Ledger.{sizes};
ghost use Rattle.gt_pages.specs.Images.{AreRuns, image_pages};

use crate::sizes::is_listed;
use gt_pages::Run;
use gt_space::PAGE_BYTES;

/// Whether an image may have these runs.
pub fn are_runs(runs: &[Run]) -> bool
    ensures { IsTrue result → AreRuns runs.now }
{
    let mut below = 0;
    for run in runs {
        if !may_follow(*run, below) {
            return false;
        }
        below = run.size;
    }
    true
}

// Whether a run may come after one with blocks of a size.
fn may_follow(run: Run, below: u32) -> bool
    ensures { IsTrue result → (below < run.size) × Contains sizes run.size × (1 ≤ run.count) }
{
    run.size > below && is_listed(run.size) && run.count > 0
}

/// How many pages the runs take up; `None` where these are 2^32 or more.
pub fn pages_for(runs: &[Run]) -> Option<u32>
    ensures { IfSome result (λ need. need ≡ image_pages runs.now) }
{
    let mut need = 0u64;
    for run in runs {
        let bytes = run.size as u64 * run.count as u64;
        need = need.checked_add((bytes + (PAGE_BYTES - 1)) / PAGE_BYTES)?;
    }
    u32::try_from(need).ok()
}
