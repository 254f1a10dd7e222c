//! Laws of takeable lists. These functions have no effect at run time.

ghost use Rattle.std.specs.Prelude.{◌≡◌, List, true, false};
ghost use Rattle.base_types.specs.Names.{Name};
ghost use Rattle.base_types.specs.Vectors.{is_vector};
ghost use Rattle.rules.specs.declared.history.Op.{Op};
ghost use Rattle.rules.specs.declared.history.Entry.{Entry};
ghost use Rattle.rules.specs.declared.history.Entry.TheVariants.{Operation};
ghost use Rattle.rules.specs.declared.limits.LimitValues.{LimitValues};
ghost use Rattle.rules.specs.Admission.{first_that_applies};
ghost use Rattle.rules.specs.Operations.{IsHistory, IsCausallyOrdered};
ghost use Rattle.rules.specs.Conflicts.{IsFounded};
ghost use Rattle.rules.specs.Records.{has_ended, operations, refusal, IsLegal};
ghost use Rattle.rules.specs.Versions.{versions};
ghost use Rattle.drawing.specs.Shown.{shown};
ghost use Rattle.late_join.specs.Taking.{is_repeat, is_early, taking_conditions, IsTakeable};
ghost use Rattle.late_join.specs.Taking.{IsCausalOrderOf};

/// Each causal order of a legal record is a takeable list under the same limits.
pub fn a_legal_record_is_taken_in_any_causal_order()
    ensures { (b : LimitValues) (r t : List Entry) → IsLegal b r → IsCausalOrderOf r t
        → IsTakeable b t }
{}

/// After all entries of a legal record in any causal order, each object has the versions that it
/// has in the record. A replica shows of it what a room with this record shows.
pub fn a_replica_shows_what_the_room_shows()
    ensures versions { (b : LimitValues) (r t : List Entry) (object : Name)
        → IsLegal b r → IsCausalOrderOf r t
        → versions (operations t) object ≡ versions (operations r) object }
    ensures shown { (b : LimitValues) (r t : List Entry) (object : Name)
        → IsLegal b r → IsCausalOrderOf r t → shown t object ≡ shown r object }
{}

/// The operations of a takeable list are a history in causal order. Each change in it has its
/// object and its base.
pub fn takeable_lists_are_histories()
    ensures history { (b : LimitValues) (t : List Entry) → IsTakeable b t
        → IsHistory (operations t) }
    ensures ordered { (b : LimitValues) (t : List Entry) → IsTakeable b t
        → IsCausallyOrdered (operations t) }
    ensures founded { (b : LimitValues) (t : List Entry) → IsTakeable b t
        → IsFounded (operations t) }
{}

/// Consider an operation after a takeable list without an end that is neither a repeat nor early.
/// It is refused where a room with these entries refuses it, by the same refusal.
pub fn an_operation_is_refused_as_a_room_refuses_it()
    ensures { (b : LimitValues) (t : List Entry) (op : Op) → IsTakeable b t
        → is_vector op.seen ≡ true
        → has_ended t ≡ false
        → is_repeat t (Operation op) ≡ false → is_early t (Operation op) ≡ false
        → first_that_applies (taking_conditions b t (Operation op)) ≡ refusal b t (Operation op) }
{}
