//! Laws of the definitions. These functions have no effect at run time.

ghost use Rattle.std.specs.Prelude.{List, Option, ℕ};
ghost use Rattle.std.specs.Io.KnownBytes.{Keeps};
ghost use Rattle.commands.specs.Checks.{check_report};
ghost use Rattle.commands.specs.Migrations.{migrate_report};
ghost use Rattle.commands.specs.Renewals.{renew_report, renewed_report};
ghost use Rattle.commands.specs.Reports.{OfReader, OfReaders, Reports};

/// With status 4 a command that writes one result has written nothing.
pub fn nothing_is_written_without_memory()
    ensures check { (first second before after : Option (List ℕ)) →
        Reports check_report (OfReaders first second) before after 4 → Keeps before after }
    ensures migrate { (bytes before after : Option (List ℕ)) →
        Reports migrate_report (OfReader bytes) before after 4 → Keeps before after }
    ensures renew { (bytes before after : Option (List ℕ)) →
        Reports renew_report (OfReader bytes) before after 4 → Keeps before after }
    ensures renewed { (first second before after : Option (List ℕ)) →
        Reports renewed_report (OfReaders first second) before after 4 → Keeps before after }
{}
