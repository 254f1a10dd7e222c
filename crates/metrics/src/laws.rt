//! Laws of the definitions. These functions have no effect at run time.

ghost use Rattle.std.specs.Prelude.{◌≡◌, ◌≤◌, ◌==◌, ◌+◌, ℕ, List, true, length, count_by, sum_by};
ghost use Rattle.std.specs.List.{list_all};
ghost use Rattle.metrics.specs.Families.{FamilyView, families_text};
ghost use Rattle.metrics.specs.Names.{has_names_in_line};

/// A text of families whose names hold no line end has two lines for each family and one for each
/// sample, whatever helps and values of labels hold.
#[tactic(auto, using(crate::proofs::Lines::lines_of_families))]
pub fn one_line_a_sample()
    ensures { (families : List FamilyView) → list_all has_names_in_line families ≡ true
        → count_by (λ byte. byte == 10) (families_text families)
        ≡ sum_by (λ family. 2 + length family.samples) families }
{}
