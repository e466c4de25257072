// The command `string`.
ghost use Rattle.std.specs.Prelude.{◌≡◌, IfOk, OnErr};
ghost use Rattle.gt_next.specs.Making.{NextText};
ghost use Rattle.gt_session.specs.Sessions.{Goes, IsAsBefore, IsSession, KeepsBytes};
ghost use Rattle.gt_making.specs.Binding.{LeavesBy};

use crate::binding::conclude;
use gt_next::{Answer, MAX_BLOCK, Why};
use gt_session::Session;
use gt_types::Word;
use std::alloc::AllocError;

// Makes the characters of a text, where they are not too large for a block, and binds a variable to them, where it is not one too many
// and there is room for them. As with zeros, the variable is bound first.
fn string(s: &mut Session, var: &Word, text: &[u8]) -> Result<Answer, AllocError>
    requires session { IsSession s.old }
    ensures next { IfOk result (LeavesBy (λ state answer t. NextText s.old.schema.program s.old.schema.layouts state var.now text.now answer t) s.old s.new) }
    ensures refused { IfOk result (λ answer. KeepsBytes answer s.old s.new) }
    ensures unchanged { OnErr result (IsAsBefore s.old s.new) }
    ensures space { OnErr result (s.new.objects.space ≡ s.old.objects.space) }
    ensures schema { s.new.schema ≡ s.old.schema }
{
    if text.len() + 1 > MAX_BLOCK as usize {
        return Ok(Answer::Refused(Why::TooLarge));
    }
    if s.vars.is_full(var) {
        return Ok(Answer::Refused(Why::TooManyVars));
    }
    let before = s.vars.get(var);
    s.vars.bind(var, 0)?;
    let made = s.objects.make_text(text);
    conclude(s, var, before, made)
}

/// Makes the characters of a text, its bytes and a zero after them, and binds a variable to them. Apart from writing the block it takes
/// constant time. If memory runs out, nothing changes.
pub fn make_string(s: &mut Session, var: &Word, text: &[u8]) -> Result<Answer, AllocError>
    requires session { IsSession s.old }
    ensures next { IfOk result (Goes (λ state answer t. NextText s.old.schema.program s.old.schema.layouts state var.now text.now answer t) s.old s.new) }
    ensures refused { IfOk result (λ answer. KeepsBytes answer s.old s.new) }
    ensures unchanged { OnErr result (IsAsBefore s.old s.new) }
    ensures space { OnErr result (s.new.objects.space ≡ s.old.objects.space) }
    ensures schema { s.new.schema ≡ s.old.schema }
{
    string(s, var, text)
}
