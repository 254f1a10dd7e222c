//! Laws of the definitions. These functions have no effect at run time.

ghost use Rattle.std.specs.Prelude.{ℕ, List, ◌≡◌, ◌++◌};
ghost use Rattle.rules.specs.declared.history.Entry.{Entry};
ghost use Rattle.wire.specs.Lines.{lines_of};
ghost use Rattle.record_file.specs.RecordText.{AreLines, whole_lines};

/// The whole lines of some entries, followed by the whole lines of others, are the whole lines of
/// both.
#[tactic(auto, using(crate::proofs::Lines::goes_on))]
pub fn lines_go_on()
    ensures { (bytes behind : List ℕ) (r more : List Entry)
        → AreLines bytes r → AreLines behind more → AreLines (bytes ++ behind) (r ++ more) }
{}

/// If a file begins with whole lines, then these are its first whole lines, whatever follows.
#[tactic(auto, using(crate::proofs::Lines::stays))]
pub fn lines_stay()
    ensures { (bytes behind : List ℕ) → whole_lines bytes ≡ bytes
        → lines_of (whole_lines (bytes ++ behind)) ≡ lines_of bytes ++ lines_of (whole_lines behind) }
{}
