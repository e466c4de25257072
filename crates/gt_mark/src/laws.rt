//! What follows from the definitions of marking. These calls do nothing: their clauses are laws.

ghost use Rattle.gt_mark.specs.Further.{CanGoOn, MarksBoth, NamesStay, RoundsBoth};

/// After marking from some blocks, or from the roots, blocks can be marked from others, and edges name blocks as before. What one call
/// after another marks is what the blocks of both reach, and their rounds are those of both together but for one first round.
pub fn marking_goes_on()
    ensures can { CanGoOn }
    ensures names { NamesStay }
    ensures both { MarksBoth }
    ensures rounds { RoundsBoth }
{}
