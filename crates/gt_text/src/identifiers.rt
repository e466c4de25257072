ghost use Rattle.std.specs.Prelude.{◌≡◌, ◌<◌, ◌||◌, ◌==◌, IsTrue};
ghost use Rattle.std.specs.Char.{is_ascii_alphabetic, is_ascii_alphanumeric};
ghost use Rattle.gt_text.specs.Identifier.{starts_identifier_of, continues_identifier_of};

/// Whether an identifier may begin with the character: `_`, or one with the property XID_Start (Unicode Standard
/// Annex 31).
#[tactic(auto, unfolding(crate::specs::Identifier::starts_identifier_of, crate::specs::Identifier::continues_identifier_of))]
pub fn starts_identifier(c: char) -> bool
    ensures starts { result ≡ starts_identifier_of c }
    ensures ascii { c < 128 → result ≡ ((c == 95) || is_ascii_alphabetic c) }
    ensures continues { IsTrue result → IsTrue (continues_identifier_of c) }
{
    c == '_' || unicode_ident::is_xid_start(c)
}

/// Whether an identifier may go on with the character: `_`, or one with the property XID_Continue (Unicode Standard
/// Annex 31).
#[tactic(auto, unfolding(crate::specs::Identifier::continues_identifier_of))]
pub fn continues_identifier(c: char) -> bool
    ensures continues { result ≡ continues_identifier_of c }
    ensures ascii { c < 128 → result ≡ ((c == 95) || is_ascii_alphanumeric c) }
{
    c == '_' || unicode_ident::is_xid_continue(c)
}
