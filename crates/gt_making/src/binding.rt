// The last steps of the commands that make blocks.
ghost use Rattle.std.specs.Prelude.{◌≡◌, ◌≢◌, ◌≤◌, ℕ, Err, IfOk, IsSome, OnErr};
ghost use Rattle.gt_tree.specs.Blocks.{Chars, element_type};
ghost use Rattle.gt_tree.specs.FixedLaws.{MayHold};
ghost use Rattle.gt_value.specs.Names.{kind_of};
ghost use Rattle.gt_value.specs.Bytes.{Takes};
ghost use Rattle.gt_graph.specs.Good.{IsOfTails};
ghost use Rattle.gt_objects.specs.Making.{IsTooLarge};
ghost use Rattle.gt_next.specs.States.{meaning};
ghost use Rattle.gt_next.specs.Making.{zeros};
ghost use Rattle.gt_session.specs.Sessions.{IsAsBefore, IsSession, KeepsBytes};
ghost use Rattle.gt_making.specs.Binding.{BindsIn, CanBeZero, Ends, LeavesBy, MakesMany, wanted_of};

use gt_held::plain_zeros_are_there;
use gt_next::{Answer, Why};
use gt_objects::{Known, Made, MakeFail, block_size, element_size};
use gt_session::Session;
use gt_types::Word;
use gt_value::BlockKind;
use std::alloc::AllocError;

// Binds a variable, which is bound already, to what was made. Where nothing was made it means again what it did before.
pub fn conclude(
    s: &mut Session,
    var: &Word,
    before: Option<u64>,
    made: Result<Made, MakeFail>,
) -> Result<Answer, AllocError>
    requires bound { IsSome (meaning s.old.vars var.now) }
    requires possible { made ≢ Err MakeFail.TooLarge }
    ensures ends { Ends s.old var.now before made s.new result }
{
    match made {
        Ok(made) => {
            s.vars.rebind(var, made.addr);
            Ok(Answer::Made {
                addr: made.addr,
                size: made.size,
            })
        }
        Err(MakeFail::Full { need }) => {
            s.vars.take_back(var, before);
            Ok(Answer::Refused(Why::Full { need }))
        }
        Err(MakeFail::Memory) => {
            s.vars.take_back(var, before);
            Err(AllocError)
        }
        Err(MakeFail::TooLarge) => unreachable!(),
    }
}

// Makes a zero object and binds a variable to it, where it is not one too many and there is room for the object. The variable is bound
// first, since that may want memory, and it means again what it did, where no object is made. If memory runs out, nothing changes.
pub fn bind_zeros(s: &mut Session, var: &Word, known: Known) -> Result<Answer, AllocError>
    requires session { IsSession s.old }
    requires kind { MayHold s.old.schema.program (kind_of known.kind) }
    requires single { IsOfTails s.old.schema.program (kind_of known.kind) → known.count ≡ 1 }
    requires no_room { ¬ IsOfTails s.old.schema.program (kind_of known.kind) → known.capacity ≡ 0 }
    requires zero { CanBeZero s.old known }
    requires size { ¬ IsTooLarge s.old.schema.program s.old.schema.layouts known }
    ensures binds { IfOk result (BindsIn s.old s.new var.now (wanted_of known) (λ state. zeros s.old.schema.program state (wanted_of known))) }
    ensures refused { IfOk result (λ answer. KeepsBytes answer s.old s.new) }
    ensures unchanged { OnErr result (IsAsBefore s.old s.new) }
    ensures space { OnErr result (s.new.objects.space ≡ s.old.objects.space) }
    ensures schema { s.new.schema ≡ s.old.schema }
{
    if s.vars.is_full(var) {
        return Ok(Answer::Refused(Why::TooManyVars));
    }
    let before = s.vars.get(var);
    s.vars.bind(var, 0)?;
    let made = s.objects.make(&s.schema.program, &s.schema.layouts, known);
    conclude(s, var, before, made)
}

// Makes so many zero elements without room at their end, where they are not too large for a block, and binds a variable to them.
pub fn bind_many(
    s: &mut Session,
    var: &Word,
    kind: BlockKind,
    count: u128,
) -> Result<Answer, AllocError>
    requires session { IsSession s.old }
    requires kind { MayHold s.old.schema.program (kind_of kind) }
    requires plain { ¬ IsOfTails s.old.schema.program (kind_of kind) }
    requires no_chars { kind_of kind ≢ Chars }
    requires some { (size : ℕ) → Takes s.old.schema.program s.old.schema.layouts 0 (element_type s.old.schema.program (kind_of kind)) size → 1 ≤ size }
    ensures many { IfOk result (LeavesBy (λ state answer t. MakesMany s.old.schema.program s.old.schema.layouts state var.now (kind_of kind) count answer t) s.old s.new) }
    ensures refused { IfOk result (λ answer. KeepsBytes answer s.old s.new) }
    ensures unchanged { OnErr result (IsAsBefore s.old s.new) }
    ensures space { OnErr result (s.new.objects.space ≡ s.old.objects.space) }
    ensures schema { s.new.schema ≡ s.old.schema }
{
    plain_zeros_are_there();
    if count > u32::MAX as u128 {
        let _ = element_size(&s.schema.program, &s.schema.layouts, kind, 0);
        return Ok(Answer::Refused(Why::TooLarge));
    }
    let known = Known {
        kind,
        count: count as u32,
        capacity: 0,
    };
    match block_size(&s.schema.program, &s.schema.layouts, known) {
        None => Ok(Answer::Refused(Why::TooLarge)),
        Some(_) => bind_zeros(s, var, known),
    }
}
