// A law of generated scripts. The call does nothing: its clause is a law.
ghost use Rattle.std.specs.Prelude.{◌≤◌, ℕ};
ghost use Rattle.gt_generated.specs.Generated.{script_text};
ghost use Rattle.gt_script.specs.Outcome.{Parsed};
ghost use Rattle.gt_written.specs.Lines.{script_lines};

/// The script of so many nodes has the lines that are meant, where these are at most 100,000, as many as an argument `:N` may ask for. So it has
/// no line that is refused, and no more commands than a script may have.
pub fn generated_is_parsed()
    ensures { (n : ℕ) → n ≤ 100000 → Parsed (script_text n) (script_lines n) }
{}
