//! Worked examples, which the check computes from the definitions. Each function has an empty body.
//! In each example a room draws one rectangle, which site 1 creates. `specs/Examples.antt` has the
//! records.

#![tactic(auto, unfolding(base_types::specs::Vectors::vector_fault, crate::specs::Operations::known, crate::specs::Operations::changes_on, crate::specs::Groups::groups_of, crate::specs::Groups::group_named, crate::specs::Groups::identifier, crate::specs::Conflicts::base, crate::specs::Conflicts::conflict, crate::specs::Versions::attributes, crate::specs::Versions::groups, crate::specs::Versions::shown_of, crate::specs::Versions::version_of, crate::specs::Versions::versions, crate::specs::Records::refusal))]

ghost use Rattle.std.specs.Prelude.{◌≡◌, [], ◌∷◌, Some, None};
ghost use Rattle.rules.specs.declared.history.Entry.TheVariants.{Join, Next};
ghost use Rattle.rules.specs.declared.refusal.Refusal.TheVariants.{WrongSeq, OwnCount, Ahead, NotClosed, NoSuchObject, NoSuchVersion, Gone, ObjectFull, TooManyKeys, TooManyVersions, Renewed};
ghost use Rattle.rules.specs.Limits.{full_limits};
ghost use Rattle.rules.specs.Records.{operations, refusal, IsLegal};
ghost use Rattle.rules.specs.Versions.{versions};
ghost use Rattle.rules.specs.steps.Examples.{x, y, line, red, puts, drops, version, gone, creation_alone, one_put, two_puts, three_sites, another_key, two_ways, five_puts, same_value_twice, value_replaced, seen_by_one, based_before, based_after, same_value_and_more, other_value_and_more, one_drop, put_beside_a_drop, two_drops, one_of_two_dropped, both_dropped, ended};

/// A put that conflicts with nothing makes no version: the one version has no name.
pub fn one_put_alone()
    ensures legal { IsLegal full_limits one_put }
    ensures versions { versions (operations one_put) (1, 1) ≡ version [] (x 5 ∷ []) ∷ [] }
{}

/// Two sites give x different values, neither having seen the other: each value has a version.
pub fn two_values_of_one_key()
    ensures legal { IsLegal full_limits two_puts }
    ensures versions { versions (operations two_puts) (1, 1) ≡
        version ((1, 2) ∷ []) (x 5 ∷ [])
        ∷ version ((2, 1) ∷ []) (x 9 ∷ []) ∷ [] }
{}

/// A put of another key conflicts with neither: it stands in both versions and in no identifier.
pub fn another_key_in_both_versions()
    ensures legal { IsLegal full_limits another_key }
    ensures versions { versions (operations another_key) (1, 1) ≡
        version ((1, 2) ∷ []) (red ∷ x 5 ∷ [])
        ∷ version ((2, 1) ∷ []) (red ∷ x 9 ∷ []) ∷ [] }
{}

/// Each site goes on with a version of its own. What is based on conflicting puts conflicts, so
/// there is no third version.
pub fn conflict_is_inherited()
    ensures legal { IsLegal full_limits two_ways }
    ensures versions { versions (operations two_ways) (1, 1) ≡
        version ((1, 2) ∷ (1, 3) ∷ []) (red ∷ x 5 ∷ [])
        ∷ version ((2, 1) ∷ (2, 2) ∷ []) (line 3 ∷ x 9 ∷ []) ∷ [] }
{}

/// Three values of x and two of y, none seeing another: six versions, one for each choice.
pub fn six_versions_of_five_puts()
    ensures legal { IsLegal full_limits five_puts }
    ensures versions { versions (operations five_puts) (1, 1) ≡
        version ((1, 2) ∷ (2, 1) ∷ []) (x 1 ∷ y 2 ∷ [])
        ∷ version ((1, 2) ∷ (4, 1) ∷ []) (x 1 ∷ y 8 ∷ [])
        ∷ version ((2, 1) ∷ (3, 1) ∷ []) (x 7 ∷ y 2 ∷ [])
        ∷ version ((2, 1) ∷ (5, 1) ∷ []) (x 9 ∷ y 2 ∷ [])
        ∷ version ((3, 1) ∷ (4, 1) ∷ []) (x 7 ∷ y 8 ∷ [])
        ∷ version ((4, 1) ∷ (5, 1) ∷ []) (x 9 ∷ y 8 ∷ []) ∷ [] }
{}

/// Two sites give x one value: their puts share the version.
pub fn one_value_of_one_key()
    ensures legal { IsLegal full_limits same_value_twice }
    ensures versions { versions (operations same_value_twice) (1, 1) ≡ version [] (x 5 ∷ []) ∷ [] }
{}

/// A value that was replaced is shown no more in that version, and conflicts with the value that
/// replaced it.
pub fn a_value_that_was_replaced()
    ensures legal { IsLegal full_limits value_replaced }
    ensures versions { versions (operations value_replaced) (1, 1) ≡
        version ((1, 3) ∷ []) (x 6 ∷ [])
        ∷ version ((2, 1) ∷ []) (x 5 ∷ []) ∷ [] }
{}

/// A put's version is looked for among what the put has seen: the third site saw one version, which
/// had no name then.
pub fn a_version_as_it_was_seen()
    ensures legal { IsLegal full_limits seen_by_one }
    ensures versions { versions (operations seen_by_one) (1, 1) ≡
        version ((1, 2) ∷ (3, 1) ∷ []) (red ∷ x 5 ∷ [])
        ∷ version ((2, 1) ∷ []) (x 9 ∷ []) ∷ [] }
{}

/// A put conflicts with what another is based on, and so with that one, whichever of the two comes
/// first.
pub fn conflict_with_a_base()
    ensures earlier { versions (operations based_before) (1, 1) ≡
        version ((1, 2) ∷ (1, 3) ∷ []) (red ∷ x 5 ∷ [])
        ∷ version ((2, 1) ∷ []) (x 9 ∷ []) ∷ [] }
    ensures later { versions (operations based_after) (1, 1) ≡
        version ((1, 2) ∷ []) (x 5 ∷ [])
        ∷ version ((2, 1) ∷ (2, 2) ∷ []) (line 3 ∷ x 9 ∷ []) ∷ [] }
{}

/// Puts that are refused, each for its own reason.
pub fn refused_puts()
    ensures number { refusal full_limits three_sites (puts (1, 2) creation_alone [] (x 1 ∷ []))
        ≡ Some WrongSeq }
    ensures own_count { refusal full_limits three_sites (puts (1, 3) creation_alone [] (x 1 ∷ []))
        ≡ Some OwnCount }
    ensures ahead { refusal full_limits three_sites (puts (3, 1) ((1, 3) ∷ []) [] (x 1 ∷ []))
        ≡ Some Ahead }
    ensures not_closed { refusal full_limits three_sites (puts (3, 1) ((2, 1) ∷ []) [] (x 1 ∷ []))
        ≡ Some NotClosed }
    ensures object { refusal full_limits three_sites (puts (3, 1) [] [] (x 1 ∷ []))
        ≡ Some NoSuchObject }
    ensures version { refusal full_limits three_sites
        (puts (1, 3) ((1, 2) ∷ (2, 1) ∷ []) [] (x 1 ∷ [])) ≡ Some NoSuchVersion }
{}

/// Puts that go past a limit, and some that just don't.
pub fn puts_past_a_limit()
    // Of changes and keys:
    ensures changes { refusal (record full_limits { changes = 1 }) one_put
        (puts (2, 1) creation_alone [] (x 9 ∷ [])) ≡ Some ObjectFull }
    ensures keys { refusal (record full_limits { keys = 1 }) one_put
        (puts (2, 1) creation_alone [] (red ∷ [])) ≡ Some TooManyKeys }
    ensures several { refusal (record full_limits { keys = 2 }) one_put
        (puts (2, 1) creation_alone [] (x 5 ∷ y 1 ∷ red ∷ [])) ≡ Some TooManyKeys }
    ensures few { refusal (record full_limits { keys = 2 }) one_put
        (puts (2, 1) creation_alone [] (x 5 ∷ red ∷ [])) ≡ None }
    // Of versions, and which refusal comes first:
    ensures versions { refusal (record full_limits { versions = 2 }) three_sites
        (puts (3, 1) creation_alone [] (x 1 ∷ [])) ≡ Some TooManyVersions }
    ensures enough { refusal (record full_limits { versions = 3 }) three_sites
        (puts (3, 1) creation_alone [] (x 1 ∷ [])) ≡ None }
    ensures keys_before_versions { refusal (record full_limits { keys = 1; versions = 1 }) one_put
        (puts (2, 1) creation_alone [] (x 9 ∷ red ∷ [])) ≡ Some TooManyKeys }
{}

/// A put of several attributes conflicts with one of another value for one of its keys, and with
/// none of the same value.
pub fn puts_of_several_attributes()
    ensures legal_same { IsLegal full_limits same_value_and_more }
    ensures same { versions (operations same_value_and_more) (1, 1) ≡
        version [] (red ∷ x 5 ∷ []) ∷ [] }
    ensures legal_other { IsLegal full_limits other_value_and_more }
    ensures other { versions (operations other_value_and_more) (1, 1) ≡
        version ((1, 2) ∷ []) (x 5 ∷ [])
        ∷ version ((2, 1) ∷ []) (red ∷ x 9 ∷ []) ∷ [] }
{}

/// A version that was dropped is gone, and no change goes on with it.
pub fn a_dropped_version_is_gone()
    ensures legal { IsLegal full_limits one_drop }
    ensures versions { versions (operations one_drop) (1, 1) ≡ gone [] ∷ [] }
    ensures put { refusal full_limits one_drop
        (puts (2, 2) ((1, 2) ∷ (2, 1) ∷ []) [] (x 7 ∷ [])) ≡ Some Gone }
    ensures dropped { refusal full_limits one_drop (drops (2, 2) ((1, 2) ∷ (2, 1) ∷ []) [])
        ≡ Some Gone }
{}

/// A put conflicts with a drop that hasn't seen it: what the put makes stands, and beside it the
/// version that is gone.
pub fn a_put_beside_a_drop()
    ensures legal { IsLegal full_limits put_beside_a_drop }
    ensures versions { versions (operations put_beside_a_drop) (1, 1) ≡
        version ((1, 3) ∷ []) (x 6 ∷ [])
        ∷ gone ((2, 1) ∷ []) ∷ [] }
{}

/// Two drops of one version, neither having seen the other, share the version.
pub fn two_drops_of_one_version()
    ensures legal { IsLegal full_limits two_drops }
    ensures versions { versions (operations two_drops) (1, 1) ≡ gone [] ∷ [] }
{}

/// Of two versions each can be dropped, and the other one stays as it is.
pub fn drops_of_two_versions()
    ensures legal { IsLegal full_limits both_dropped }
    ensures one { versions (operations one_of_two_dropped) (1, 1) ≡
        gone ((1, 2) ∷ (1, 3) ∷ [])
        ∷ version ((2, 1) ∷ []) (x 9 ∷ []) ∷ [] }
    ensures both { versions (operations both_dropped) (1, 1) ≡
        gone ((1, 2) ∷ (1, 3) ∷ [])
        ∷ gone ((2, 1) ∷ (2, 2) ∷ []) ∷ [] }
{}

/// Drops that are refused, and one that a limit on keys doesn't refuse.
pub fn refused_drops()
    ensures object { refusal full_limits one_put (drops (2, 1) [] []) ≡ Some NoSuchObject }
    ensures version { refusal full_limits one_put (drops (2, 1) ((1, 2) ∷ []) ((1, 2) ∷ []))
        ≡ Some NoSuchVersion }
    ensures changes { refusal (record full_limits { changes = 1 }) one_put
        (drops (2, 1) ((1, 2) ∷ []) []) ≡ Some ObjectFull }
    ensures versions { refusal (record full_limits { versions = 1 }) one_put
        (drops (2, 1) creation_alone []) ≡ Some TooManyVersions }
    ensures gone { refusal (record full_limits { versions = 1 }) one_drop
        (puts (1, 3) ((1, 2) ∷ []) [] (x 6 ∷ [])) ≡ Some TooManyVersions }
    ensures keys { refusal (record full_limits { keys = 0 }) one_put
        (drops (2, 1) ((1, 2) ∷ []) []) ≡ None }
{}

/// Nothing is admitted after the end of a record: no join, no operation and no other end.
pub fn nothing_follows_the_end()
    ensures legal { IsLegal full_limits ended }
    ensures versions { versions (operations ended) (1, 1) ≡ version [] (x 5 ∷ []) ∷ [] }
    ensures join { refusal full_limits ended (Join 3) ≡ Some Renewed }
    ensures put { refusal full_limits ended (puts (2, 1) creation_alone [] (x 9 ∷ []))
        ≡ Some Renewed }
    ensures drop { refusal full_limits ended (drops (2, 1) creation_alone []) ≡ Some Renewed }
    ensures end { refusal full_limits ended (Next 2) ≡ Some Renewed }
{}
