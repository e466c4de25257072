// Laws that something is the outcome, for callers to cite. The functions do nothing.
ghost use Rattle.std.specs.Prelude.{ℕ, List};
ghost use Rattle.gt_items.specs.declared.items.Items.{Items};
ghost use Rattle.gt_exists.specs.Outcomes.{HasReading, HasResolution};

use gt_lex::one_answer;
use gt_search::some_search;

/// Each text has items or a first fault.
pub fn each_text()
    ensures reading { (text : List ℕ) → HasReading text }
{
    one_answer();
    some_search();
}

/// It cannot be that files have neither a draft without faults of names and types nor a first fault.
pub fn each_resolution()
    ensures resolution { (files : List Items) → ¬ (¬ HasResolution files) }
{}
