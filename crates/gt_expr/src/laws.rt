// Laws of the definitions, for every text and every tree. The functions do nothing.
ghost use Rattle.std.specs.Prelude.{◌≡◌, ◌≤◌, ℕ, List, length, Ok, Err};
ghost use Rattle.gt_types.specs.declared.faults.Fault.{Fault};
ghost use Rattle.gt_expr.specs.declared.part.Line.TheVariants.{Conditional};
ghost use Rattle.gt_expr.specs.declared.part.Part.{Part};
ghost use Rattle.gt_expr.specs.declared.raw.RawExpr.{RawExpr};
ghost use Rattle.gt_expr.specs.Expression.{IsExpression, IsRefused, HasTree, expression_of, fault_at};
ghost use Rattle.gt_expr.specs.Grammar.{Derives};
ghost use Rattle.gt_expr.specs.Parts.{parts_of};
ghost use Rattle.gt_expr.specs.Spelling.{Spells};

use crate::MAX_PARTS;

/// No text has two trees.
pub fn one_tree()
    ensures { (text : List ℕ) (s t : RawExpr) → HasTree text s → HasTree text t → s ≡ t }
{}

/// Parts that are spelled in their order, with white space after each, are the parts of that text.
pub fn spelling_gives_parts()
    ensures { (text : List ℕ) (ps : List Part) → Spells text ps → parts_of text ≡ ps }
{}

/// A tree that is spelled by the grammar, in 256 parts or fewer, is the tree of that text. So `read` gives it back,
/// unless memory runs out.
pub fn spelling_gives_trees()
    ensures { (text : List ℕ) (ps : List Part) (t : RawExpr) → Spells text ps → Derives Conditional ps t → length ps ≤ MAX_PARTS → IsExpression text t }
{}

/// Whether a text is an expression, and which, is a function of the text: its tree, or the number of its fault.
pub fn one_answer()
    ensures tree { (text : List ℕ) (t : RawExpr) → IsExpression text t → expression_of text ≡ Ok t }
    ensures is { (text : List ℕ) (t : RawExpr) → expression_of text ≡ Ok t → IsExpression text t }
    ensures fault { (text : List ℕ) (file at : ℕ) (fault : Fault) → IsRefused text file at fault → expression_of text ≡ Err fault.number }
    ensures refused { (text : List ℕ) (number file at : ℕ) → expression_of text ≡ Err number → IsRefused text file at (fault_at number file at) }
{}
