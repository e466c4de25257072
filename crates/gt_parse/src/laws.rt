// Laws of the definitions, for all tokens. The functions do nothing.
ghost use Rattle.std.specs.Prelude.{◌≡◌, List, Option};
ghost use Rattle.gt_items.specs.declared.items.Item.{Item as TheItem};
ghost use Rattle.gt_search.specs.declared.lexeme.Lexeme.{Lexeme as TheLexeme};
ghost use Rattle.gt_parse.specs.ItemGrammar.{AnItem};
ghost use Rattle.gt_marked.specs.Outcome.{Outcome};
ghost use Rattle.gt_parse.specs.Reading.{item_at};

/// How a whole item is read is what its rules allow.
pub fn each_rule()
    ensures { (tokens : List TheLexeme) → AnItem tokens (item_at tokens) }
{}

/// The rules of a whole item allow nothing else: no tokens have two outcomes.
pub fn one_outcome()
    ensures { (tokens : List TheLexeme) (outcome : Outcome (Option TheItem)) → AnItem tokens outcome → outcome ≡ item_at tokens }
{}
