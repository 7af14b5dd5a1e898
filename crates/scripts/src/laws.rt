//! The law of the lines of an input.
ghost use Rattle.scripts.specs.Words.{AreLines, lines_of};
ghost use Rattle.std.specs.Prelude.{List, ℕ, ◌≡◌};

/// States what the lines of an input are: no line has a line feed, and a line feed ends each line,
/// except that the end of the input may end the last one. An input has these lines and no others.
/// The function does nothing: its contract is the law.
pub fn lines_law()
    ensures are { (input : List ℕ) → AreLines input (lines_of input) }
    ensures only { (input : List ℕ) (lines : List (List ℕ)) → AreLines input lines
        → lines ≡ lines_of input }
{}
