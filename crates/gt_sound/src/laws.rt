// Laws on what headers declare, for callers to cite. The functions do nothing.
ghost use Rattle.std.specs.Prelude.{ℕ, List, All};
ghost use Rattle.gt_items.specs.declared.items.Items.{Items};
ghost use Rattle.gt_lex.specs.declared.tokens.Token.{Token};
ghost use Rattle.gt_lex.specs.declared.tokens.Define.{Define};
ghost use Rattle.gt_lex.specs.Texts.{IsLexed};
ghost use Rattle.gt_markers.specs.Sound.{IsSound};
ghost use Rattle.gt_parse.specs.Header.{AreItems};
ghost use Rattle.gt_drafts.specs.declared.draft.Draft.{Draft};
ghost use Rattle.gt_resolve.specs.Resolution.{Resolves};
ghost use Rattle.gt_sound.specs.WellMade.{IsWellMade};

/// What is read from a header is well made: names are names, and expressions have as many operands as their operators take.
pub fn read_is_well_made()
    ensures well_made { (text : List ℕ) (tokens : List Token) (defines : List Define) (items : Items) →
        IsLexed text tokens defines → AreItems text tokens defines items → IsWellMade items }
{}

/// A draft without faults of names and types is sound.
pub fn resolved_is_sound()
    ensures sound { (files : List Items) (draft : Draft) → All IsWellMade files → Resolves files draft → IsSound draft }
{}
