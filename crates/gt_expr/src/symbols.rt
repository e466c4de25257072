ghost use Rattle.std.specs.Prelude.{◌≡◌, ◌≤◌, ◌<◌, length};
ghost use Rattle.gt_expr.specs.Parts.{symbol_at};

use crate::characters::width_at;
use crate::part::Part;
use gt_types::{Base, Op};

// The symbol at the front of a text and its length, or else one character that is no part of an expression.
#[tactic(auto, unfolding(crate::specs::Parts::symbol_at))]
pub fn symbol_at(text: &[u8]) -> (Part, usize)
    ensures part { result ≡ symbol_at text.now }
    ensures within { 0 < length text.now → result.1 ≤ length text.now }
    ensures some { 0 < result.1 }
{
    match text {
        [b'&', b'&', ..] => (Part::Operator(Op::And), 2),
        [b'|', b'|', ..] => (Part::Operator(Op::Or), 2),
        [b'=', b'=', ..] => (Part::Operator(Op::Eq), 2),
        [b'!', b'=', ..] => (Part::Operator(Op::Ne), 2),
        [b'<', b'=', ..] => (Part::Operator(Op::Le), 2),
        [b'>', b'=', ..] => (Part::Operator(Op::Ge), 2),
        [b'%', b'h', ..] => (Part::Percent(Base::Here), 2),
        [b'%', b'1', ..] => (Part::Percent(Base::Outer), 2),
        [b'%', b'0', ..] => (Part::Percent(Base::Outermost), 2),
        [b'!', ..] => (Part::Operator(Op::Not), 1),
        [b'-', ..] => (Part::Operator(Op::Sub), 1),
        [b'+', ..] => (Part::Operator(Op::Add), 1),
        [b'*', ..] => (Part::Operator(Op::Mul), 1),
        [b'<', ..] => (Part::Operator(Op::Lt), 1),
        [b'>', ..] => (Part::Operator(Op::Gt), 1),
        [b'?', ..] => (Part::Question, 1),
        [b':', ..] => (Part::Colon, 1),
        [b'.', ..] => (Part::Dot, 1),
        [b'(', ..] => (Part::Open, 1),
        [b')', ..] => (Part::Close, 1),
        _ => (Part::Other, width_at(text)),
    }
}
