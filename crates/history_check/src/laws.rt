//! Laws of the definitions. These functions have no effect at run time.

ghost use Rattle.std.specs.Prelude.{◌≡◌, ℕ, List};
ghost use Rattle.history_check.specs.declared.verdict.Verdict.{Verdict};
ghost use Rattle.history_check.specs.Verdicts.{IsVerdict};

/// The bytes of a record and of a transcript have at most one verdict.
#[tactic(auto, using(crate::proofs::OnlyOne::one))]
pub fn one_verdict()
    ensures { (entries transcript : List ℕ) (one other : Verdict)
        → IsVerdict entries transcript one → IsVerdict entries transcript other → one ≡ other }
{}
