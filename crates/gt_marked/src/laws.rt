// Laws of the definitions, for all tokens. The functions do nothing.
ghost use Rattle.std.specs.Prelude.{◌≡◌, List};
ghost use Rattle.gt_items.specs.declared.items.Item.{Item as TheItem};
ghost use Rattle.gt_items.specs.declared.items.RawField.{RawField as TheField};
ghost use Rattle.gt_items.specs.declared.items.RawOption.{RawOption as TheOption};
ghost use Rattle.gt_items.specs.declared.items.RawType.{RawType as TheType};
ghost use Rattle.gt_search.specs.declared.lexeme.Lexeme.{Lexeme as TheLexeme};
ghost use Rattle.gt_marked.specs.declared.types.Context.{Context as ThePlace};
ghost use Rattle.gt_marked.specs.FieldGrammar.{Field};
ghost use Rattle.gt_marked.specs.Fields.{field_at};
ghost use Rattle.gt_marked.specs.Marked.{marked_at};
ghost use Rattle.gt_marked.specs.MarkedGrammar.{MarkedItem};
ghost use Rattle.gt_marked.specs.MarkerGrammar.{Marker};
ghost use Rattle.gt_marked.specs.Markers.{marker_at};
ghost use Rattle.gt_marked.specs.Outcome.{Outcome};
ghost use Rattle.gt_marked.specs.TypeGrammar.{AType};
ghost use Rattle.gt_marked.specs.Types.{type_at};

/// How a marker is read is what its rules allow, and they allow nothing else.
pub fn marker_rules()
    ensures allowed { (tokens : List TheLexeme) → Marker tokens (marker_at tokens) }
    ensures alone { (tokens : List TheLexeme) (outcome : Outcome (List TheOption)) → Marker tokens outcome → outcome ≡ marker_at tokens }
{}

/// How a type is read is what its rules allow, and they allow nothing else.
pub fn type_rules()
    ensures allowed { (place : ThePlace) (tokens : List TheLexeme) → AType place tokens (type_at place tokens) }
    ensures alone { (place : ThePlace) (tokens : List TheLexeme) (outcome : Outcome TheType) → AType place tokens outcome → outcome ≡ type_at place tokens }
{}

/// How a field is read is what its rules allow, and they allow nothing else.
pub fn field_rules()
    ensures allowed { (tokens : List TheLexeme) → Field tokens (field_at tokens) }
    ensures alone { (tokens : List TheLexeme) (outcome : Outcome TheField) → Field tokens outcome → outcome ≡ field_at tokens }
{}

/// How a marked item is read is what its rules allow, and they allow nothing else.
pub fn marked_rules()
    ensures allowed { (tokens : List TheLexeme) → MarkedItem tokens (marked_at tokens) }
    ensures alone { (tokens : List TheLexeme) (outcome : Outcome TheItem) → MarkedItem tokens outcome → outcome ≡ marked_at tokens }
{}
