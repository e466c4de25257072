// Laws of the script language, for every text. The functions do nothing.
ghost use Rattle.std.specs.Prelude.{◌≡◌, ◌<◌, ℕ, List, Some, Result, All, Contains};
ghost use Rattle.gt_script.specs.declared.command.Hop.{Hop};
ghost use Rattle.gt_script.specs.declared.command.Line.{Line};
ghost use Rattle.gt_script.specs.declared.command.Command.TheVariants.{Text};
ghost use Rattle.gt_script.specs.declared.stop.ScriptStop.{ScriptStop};
ghost use Rattle.gt_split.specs.declared.pieces.Piece.{Piece};
ghost use Rattle.gt_split.specs.Cutting.{words_of};
ghost use Rattle.gt_script.specs.Language.{AreSteps, AreWords, IsLine};
ghost use Rattle.gt_script.specs.Outcome.{Parsed, IsOutcome, HasOutcome};
ghost use Rattle.gt_script.specs.Scanning.{line_at};
ghost use Rattle.gt_script.specs.Steps.{steps_at};

/// Each text has exactly one outcome: lines, a first line that is refused, or more commands than a script may have. So
/// `parse_script` gives it, unless memory runs out.
pub fn one_outcome()
    ensures some { (text : List ℕ) → HasOutcome text }
    ensures one { (text : List ℕ) (outcome other : Result (List Line) ScriptStop) → IsOutcome text outcome → IsOutcome text other → outcome ≡ other }
{}

/// Words that are spelled with blanks between them are the words of that text, and each word is spelled so.
pub fn words_as_spelled()
    ensures again { (text : List ℕ) (words : List Piece) → AreWords text words → words_of text ≡ Some words }
    ensures taken { (text : List ℕ) (words : List Piece) → words_of text ≡ Some words → AreWords text words }
{}

/// What is spelled as steps is read as those steps, and what is read as steps is spelled so.
pub fn steps_as_spelled()
    ensures again { (text : List ℕ) (steps : List Hop) → AreSteps text steps → steps_at text ≡ Some steps }
    ensures taken { (text : List ℕ) (steps : List Hop) → steps_at text ≡ Some steps → AreSteps text steps }
{}

/// What is spelled as a line is read as that line, and what is read as a line is spelled so.
pub fn lines_as_spelled()
    ensures again { (text : List ℕ) (line : Line) → IsLine text line → line_at text ≡ Some (Some line) }
    ensures taken { (text : List ℕ) (line : Line) → line_at text ≡ Some (Some line) → IsLine text line }
{}

/// The text of a command that a line says is of bytes: each of its numbers is below 256. This holds of each line of a script.
pub fn lines_are_of_bytes()
    ensures line { (text : List ℕ) (line : Line) (var bytes : List ℕ) → IsLine text line → line.command ≡ Text var bytes → All (λ byte. byte < 256) bytes }
    ensures script { (text : List ℕ) (lines : List Line) (line : Line) (var bytes : List ℕ) → Parsed text lines → Contains lines line → line.command ≡ Text var bytes → All (λ byte. byte < 256) bytes }
{}
