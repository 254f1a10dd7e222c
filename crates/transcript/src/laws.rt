//! Laws of the form of a line. These functions have no effect at run time.

ghost use Rattle.std.specs.Prelude.{◌≡◌, ◌↔◌, List, ℕ, Some};
ghost use Rattle.transcript.specs.declared.line.TranscriptLine.{TranscriptLine};
ghost use Rattle.transcript.specs.Lines.{IsLineText};
ghost use Rattle.transcript.specs.steps.Reads.{line_read};

/// Bytes are a text of at most one line.
#[tactic(auto, using(crate::proofs::LineTexts::one_line))]
pub fn one_line()
    ensures { (bytes : List ℕ) (p q : TranscriptLine)
        → IsLineText bytes p → IsLineText bytes q → p ≡ q }
{}

/// Reading bytes gives the line that they are a text of.
#[tactic(auto, using(crate::proofs::LineTexts::lines_by_form))]
pub fn lines_by_form()
    ensures { (bytes : List ℕ) (line : TranscriptLine) →
        (line_read bytes ≡ Some line) ↔ IsLineText bytes line }
{}
