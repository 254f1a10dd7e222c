//! Laws of the definitions. These functions have no effect at run time.

ghost use Rattle.std.specs.Prelude.{ℕ, List, ◌++◌};
ghost use Rattle.rules.specs.Limits.{full_limits};
ghost use Rattle.rules.specs.Records.{IsLegal};
ghost use Rattle.record_file.specs.RecordText.{AreLines};
ghost use Rattle.restore.specs.declared.restored.Restored.{Restored};
ghost use Rattle.restore.specs.Restoring.{IsRestored, HasAllOf};
ghost use Rattle.room_lock.specs.Passes.{PrefixView};
ghost use Rattle.keeping.specs.Kept.{IsKeptIn};

/// A receipt outlasts a loss of power. Take what a reply reported, by a receipt for what the file
/// keeps. The next start finds a file that begins with the kept lines, whatever follows. It
/// restores all that was reported, or it refuses the file at a later line.
#[tactic(auto, using(restore::proofs::Told::has_all_told))]
pub fn what_was_reported_is_restored()
    ensures { (kept reported : PrefixView) (bytes behind : List ℕ) (restored : Restored) →
        IsKeptIn kept reported → AreLines bytes kept.entries → IsLegal full_limits reported.entries →
        IsRestored (bytes ++ behind) restored → HasAllOf reported.entries restored }
{}
