// What follows from the definitions alone.
ghost use Rattle.gt_script.specs.Reading.{BeginsNoLine, EndsWithLine};
ghost use Rattle.gt_script.specs.Script.{EndsBehind, EndsWithNext, Reads, ScriptText};
ghost use Rattle.gt_script.specs.declared.line.Line.{Line};
ghost use Rattle.gt_setup.specs.Setup.{Setup};
ghost use Rattle.std.specs.Prelude.{List, [], length, ◌++◌, ◌≡◌, ◌⊎◌, ℕ};

/// Under one setup a script has one reading: of two lists of lines at the front of the same bytes one is a front of the
/// other, so two lists that no further line follows are the same, and nothing follows such a list.
pub fn a_script_has_one_reading()
    ensures reading { (setup : Setup) (lines others : List Line) (bytes after behind : List ℕ)
        → Reads setup lines bytes after → Reads setup others bytes behind
        → ((more : List Line) × (others ≡ lines ++ more))
        ⊎ ((more : List Line) × (lines ≡ others ++ more)) }
    ensures whole { (setup : Setup) (lines others : List Line) (bytes after behind : List ℕ)
        → Reads setup lines bytes after → EndsBehind setup lines bytes
        → Reads setup others bytes behind → EndsBehind setup others bytes → lines ≡ others }
    ensures none { (setup : Setup) (lines more : List Line) (bytes after : List ℕ)
        → EndsBehind setup lines bytes → Reads setup (lines ++ more) bytes after → more ≡ [] }
{}

/// What stands behind the text of some lines says which line follows them: none where no line stands there, and one that ends
/// with the bytes where each that stands there does.
pub fn lines_end_with_their_text()
    ensures none { (setup : Setup) (lines : List Line) (text rest : List ℕ)
        → ScriptText setup lines text → BeginsNoLine setup (length text) rest
        → EndsBehind setup lines (text ++ rest) }
    ensures last { (setup : Setup) (lines : List Line) (text rest : List ℕ)
        → ScriptText setup lines text → EndsWithLine setup (length text) rest
        → EndsWithNext setup lines (text ++ rest) }
{}
