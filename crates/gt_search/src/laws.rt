// Laws of the definitions, for all tokens. The functions do nothing.
ghost use Rattle.std.specs.Prelude.{◌≡◌, List, []};
ghost use Rattle.gt_search.specs.declared.lexeme.Lexeme.{Lexeme as TheLexeme};
ghost use Rattle.gt_search.specs.declared.search.End.{End};
ghost use Rattle.gt_search.specs.Search.{Searches};

/// The search for items comes to an end in each list of tokens.
pub fn some_search()
    ensures { (ts : List TheLexeme) → (items : List (List TheLexeme)) × (end : End) × Searches [] ts items end }
{}

/// No list of tokens has two lists of items, or two ends of the search.
pub fn one_search()
    ensures { (ts : List TheLexeme) (items others : List (List TheLexeme)) (end other : End) →
        Searches [] ts items end → Searches [] ts others other → (items ≡ others) × (end ≡ other) }
{}
