// Laws on what a text is read as, for callers to cite.
ghost use Rattle.std.specs.Prelude.{◌≡◌, ℕ, List, length, All};
ghost use Rattle.gt_lex.specs.declared.tokens.Token.{Token};
ghost use Rattle.gt_lex.specs.declared.tokens.Define.{Define};
ghost use Rattle.gt_lex.specs.Texts.{IsLexed, IsFirstFault, HasAnswer};
ghost use Rattle.gt_lex.specs.Spans.{AreSpans, token_spans, define_spans, IsSlice, IsNameSlice, AreApart};

/// The tokens of a text are slices of it, each of its kind, in order and apart, and before, between and after them are
/// white space, comments and directives alone.
pub fn token_slices()
    ensures order { (text : List ℕ) (tokens : List Token) (defines : List Define) →
        IsLexed text tokens defines → AreSpans 0 (token_spans tokens) (length text) }
    ensures slices { (text : List ℕ) (tokens : List Token) (defines : List Define) →
        IsLexed text tokens defines → All (IsSlice text) tokens }
    ensures between { (text : List ℕ) (tokens : List Token) (defines : List Define) →
        IsLexed text tokens defines → AreApart text 0 tokens }
{}

/// The names of the constants of a text are slices of it, identifiers, in order and apart.
pub fn constant_names()
    ensures order { (text : List ℕ) (tokens : List Token) (defines : List Define) →
        IsLexed text tokens defines → AreSpans 0 (define_spans defines) (length text) }
    ensures slices { (text : List ℕ) (tokens : List Token) (defines : List Define) →
        IsLexed text tokens defines → All (IsNameSlice text) defines }
{}

/// Each text has tokens or a first fault. None has two lists of tokens or constants, both tokens and a first fault, or
/// two first faults.
pub fn one_answer()
    ensures some { (text : List ℕ) → HasAnswer text }
    ensures tokens { (text : List ℕ) (tokens others : List Token) (defines other_defines : List Define) →
        IsLexed text tokens defines → IsLexed text others other_defines → (tokens ≡ others) × (defines ≡ other_defines) }
    ensures not_both { (text : List ℕ) (tokens : List Token) (defines : List Define) (number at : ℕ) →
        IsLexed text tokens defines → IsFirstFault text number at → ⊥ }
    ensures fault { (text : List ℕ) (number at other other_at : ℕ) →
        IsFirstFault text number at → IsFirstFault text other other_at → (number ≡ other) × (at ≡ other_at) }
{}
