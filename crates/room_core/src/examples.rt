//! Worked examples of answers, which the check computes from the definitions. Each function has an
//! empty body. The records are those of `rules::examples`, in which a room draws one rectangle.

#![tactic(auto, unfolding(base_types::specs::Vectors::vector_fault, rules::specs::Operations::known, rules::specs::Operations::changes_on, rules::specs::Groups::groups_of, rules::specs::Groups::group_named, rules::specs::Groups::identifier, rules::specs::Conflicts::base, rules::specs::Conflicts::conflict, rules::specs::Versions::attributes, rules::specs::Versions::groups, rules::specs::Versions::shown_of, rules::specs::Versions::version_of, rules::specs::Versions::versions, rules::specs::Records::refusal, crate::specs::Answers::answer))]

ghost use Rattle.std.specs.Prelude.{◌≡◌, [], ◌∷◌, Some, None, codes, true, false};
ghost use Rattle.rules.specs.declared.history.Body.TheVariants.{Put, DropVersion};
ghost use Rattle.rules.specs.declared.history.Entry.TheVariants.{Join as Joins};
ghost use Rattle.rules.specs.declared.refusal.Refusal.TheVariants.{NotJoined, AlreadyJoined, NoSuchObject, NoSuchVersion, Gone, TooFar, NoSuchSite, SiteInUse};
ghost use Rattle.rules.specs.Limits.{full_limits};
ghost use Rattle.rules.specs.steps.Examples.{x, red, puts, drops, version, gone, creation_alone, one_put, two_puts, three_sites, one_drop};
ghost use Rattle.wire.specs.declared.request.Request.TheVariants.{Join, Back, Change, Show, Pull, Leave, List as ListObjects};
ghost use Rattle.wire.specs.declared.reply.Reply.TheVariants.{Returned, Taken, Versions, Objects, Entries, Left, No};
ghost use Rattle.room_core.specs.Room.{full_room};
ghost use Rattle.room_core.specs.Answers.{answer, back_reply};

/// A put that is taken is answered by the identifiers of all versions, and added to the record.
pub fn puts_are_taken()
    ensures conflicting { answer (full_room one_put) 2
        (Change 1 creation_alone (Put (1, 1) [] (red ∷ x 9 ∷ [])))
        ≡ (
          Taken 4 (((1, 2) ∷ []) ∷ ((2, 1) ∷ []) ∷ []),
          Some (puts (2, 1) creation_alone [] (red ∷ x 9 ∷ [])),
        ) }
    ensures of_a_version_as_seen { answer (full_room three_sites) 3
        (Change 1 ((1, 2) ∷ []) (Put (1, 1) [] (red ∷ [])))
        ≡ (
          Taken 6 (((1, 2) ∷ (3, 1) ∷ []) ∷ ((2, 1) ∷ []) ∷ []),
          Some (puts (3, 1) ((1, 2) ∷ []) [] (red ∷ [])),
        ) }
{}

/// A drop that is taken is answered so too. Its version is then shown as gone, and who has seen the
/// drop can't go on with it.
pub fn drops_are_taken()
    ensures taken { answer (full_room one_put) 2 (Change 1 ((1, 2) ∷ []) (DropVersion (1, 1) []))
        ≡ (Taken 4 ([] ∷ []), Some (drops (2, 1) ((1, 2) ∷ []) [])) }
    ensures shown { answer (full_room one_drop) 1 (Show (1, 1))
        ≡ (Versions 5 (1, 1) (codes "rect") (gone [] ∷ []), None) }
    ensures refused { answer (full_room one_drop) 2
        (Change 2 ((1, 2) ∷ (2, 1) ∷ []) (Put (1, 1) [] (x 7 ∷ [])))
        ≡ (No 5 Gone, None) }
{}

/// A change of a version that its author didn't see is refused.
pub fn a_version_that_was_not_seen()
    ensures change { answer (full_room two_puts) 1
        (Change 3 ((1, 2) ∷ (2, 1) ∷ []) (Put (1, 1) [] (x 1 ∷ [])))
        ≡ (No 5 NoSuchVersion, None) }
    ensures show { answer (full_room two_puts) 1 (Show (9, 9)) ≡ (No 5 NoSuchObject, None) }
{}

/// An object is shown with all its versions.
pub fn two_versions_are_shown()
    ensures by_one { answer (full_room two_puts) 1 (Show (1, 1))
        ≡ (
          Versions 5 (1, 1) (codes "rect") (version ((1, 2) ∷ []) (x 5 ∷ [])
              ∷ version ((2, 1) ∷ []) (x 9 ∷ []) ∷ []),
          None,
        ) }
    ensures by_the_other { answer (full_room two_puts) 2 (Show (1, 1))
        ≡ (
          Versions 5 (1, 1) (codes "rect") (version ((1, 2) ∷ []) (x 5 ∷ [])
              ∷ version ((2, 1) ∷ []) (x 9 ∷ []) ∷ []),
          None,
        ) }
{}

/// Pages of the objects and of the record begin where they are asked to, and at most at the end.
pub fn pages_from_a_place()
    // Of the objects.
    ensures objects { answer (full_room two_puts) 1 (ListObjects 0)
        ≡ (Objects 5 0 1 (((1, 1), codes "rect") ∷ []), None) }
    ensures past_the_last_object { answer (full_room two_puts) 1 (ListObjects 1)
        ≡ (Objects 5 1 1 [], None) }
    ensures objects_too_far { answer (full_room two_puts) 1 (ListObjects 2) ≡ (No 5 TooFar, None) }
    // Of the record.
    ensures entries { answer (full_room two_puts) 1 (Pull 4 false)
        ≡ (Entries 5 4 (puts (2, 1) creation_alone [] (x 9 ∷ []) ∷ []), None) }
    ensures past_the_last_entry { answer (full_room two_puts) 1 (Pull 5 false)
        ≡ (Entries 5 5 [], None) }
    ensures waits { answer (full_room two_puts) 1 (Pull 5 true) ≡ (Entries 5 5 [], None) }
    ensures entries_too_far { answer (full_room two_puts) 1 (Pull 99 false) ≡ (No 5 TooFar, None) }
    ensures one_on_a_page { let small = record full_limits { page = 1 }
        in answer (record { limits = small; entries = two_puts }) 1 (Pull 0 false)
        ≡ (Entries 5 0 (Joins 1 ∷ []), None) }
{}

/// Who may ask a room, and what is asked of none.
pub fn who_may_ask()
    ensures leaves { answer (full_room two_puts) 2 Leave ≡ (Left 5, None) }
    ensures not_joined { answer (full_room two_puts) 3 Leave ≡ (No 0 NotJoined, None) }
    ensures already_joined { answer (full_room two_puts) 2 (Join (codes "r"))
        ≡ (No 0 AlreadyJoined, None) }
    ensures already_back { answer (full_room two_puts) 2 (Back (codes "r") 1)
        ≡ (No 0 AlreadyJoined, None) }
{}

/// Who comes back as a site that nobody is in as is told how many operations it has made.
pub fn who_may_come_back()
    ensures free { back_reply (full_room two_puts) false 1 ≡ Returned 5 1 2 }
    ensures in_use { back_reply (full_room two_puts) true 1 ≡ No 5 SiteInUse }
    ensures no_such_site { back_reply (full_room two_puts) false 3 ≡ No 5 NoSuchSite }
{}
