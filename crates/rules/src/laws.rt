//! Laws over the definitions. Each function has an empty body: its contract is the law.

ghost use Rattle.std.specs.Prelude.{◌≡◌, ◌↔◌, ◌≤◌, ◌+◌, ◌||◌, ℕ, ◌∷◌, ◌++◌, not, bytes_eq, Bool, true, false, List, [], length, map, reverse, find, Some, None, IsTrue, Contains, if◌then◌else◌};
ghost use Rattle.std.specs.List.{list_any, count_by};
ghost use Rattle.std.specs.List.Sorted.{IsPermutation, IsStrictlySortedBy};
ghost use Rattle.base_types.specs.Names.{Name};
ghost use Rattle.base_types.specs.Texts.{Bytes};
ghost use Rattle.base_types.specs.VersionIds.{id_cmp, same_names};
ghost use Rattle.rules.specs.declared.history.Op.{Op};
ghost use Rattle.rules.specs.declared.history.Entry.{Entry};
ghost use Rattle.rules.specs.declared.history.Entry.TheVariants.{Next};
ghost use Rattle.rules.specs.declared.limits.LimitValues.{LimitValues};
ghost use Rattle.rules.specs.declared.history.Body.{Body};
ghost use Rattle.rules.specs.declared.version.Shown.TheVariants.{Attrs, Gone};
ghost use Rattle.base_types.specs.declared.value.Value.{Value};
ghost use Rattle.rules.specs.Bodies.{is_put_body, is_drop_body, pairs_of_body, differ_on_a_key, value_of_body, version_of_body};
ghost use Rattle.rules.specs.Lists.{HasNoRepeats};
ghost use Rattle.rules.specs.Operations.{IsHistory, before, is_on, is_change_on, name_of, object_of};
ghost use Rattle.rules.specs.Operations.{known, changes_on, creation_of, concurrent, holds_drop};
ghost use Rattle.rules.specs.Operations.{IsCausallyOrdered};
ghost use Rattle.rules.specs.steps.Histories.{IsPartOf, AreSame, Before, is_past, operations_on};
ghost use Rattle.rules.specs.steps.Histories.{HoldTheSame};
ghost use Rattle.rules.specs.Groups.{groups_of, group_named, identifier, is_compatible, IsGroup};
ghost use Rattle.rules.specs.steps.NamedGroups.{compatible_with_named};
ghost use Rattle.rules.specs.Conflicts.{base, conflict, direct_conflict, members, with_base, IsFounded};
ghost use Rattle.rules.specs.AttrLists.{Attr, are_pairs};
ghost use Rattle.rules.specs.Versions.{attributes, groups, initial_of, keys_of, shown_of, versions};
ghost use Rattle.rules.specs.Versions.{version_of, decides, gives, value_by, value_of_key};
ghost use Rattle.rules.specs.steps.Keys.{new_keys};
ghost use Rattle.rules.specs.Records.{operations, version_conditions, IsLegal};

// ---- causal order

/// On a history causal order is one count.
#[tactic(auto, using(crate::proofs::Causal::Before_is_counts))]
pub fn before_is_one_count()
    ensures { (h : List Op) (a b : Op) → IsHistory h → Contains h a → Contains h b
        → (IsTrue (before a b) ↔ Before h a b) }
{}

/// A history can be listed in causal order, in which no operation precedes one that is listed
/// before it.
#[tactic(auto, using(crate::proofs::Ordered::causal_listing))]
pub fn histories_have_a_causal_order()
    ensures { (h : List Op) → IsHistory h
        → (k : List Op) × IsPermutation h k × IsCausallyOrdered k }
{}

/// What is listed as all changes of an object are its changes.
pub fn changes_on_an_object()
    ensures { (h : List Op) (object : Name) (a : Op)
        → Contains (changes_on h object) a ↔ (Contains h a × IsTrue (is_change_on object a)) }
{}

/// What an operation knows are the changes of its object that are before it.
pub fn known_are_the_changes_before()
    ensures { (h : List Op) (a b : Op) → IsHistory h → Contains h b
        → (Contains (known h b) a
        ↔ (Contains h a × IsTrue (is_change_on (object_of b) a) × Before h a b)) }
{}

// ---- groups of any list, by any relation of conflict

/// The groups of a list are its maximal compatible parts.
pub fn groups_are_the_maximal_parts<X>()
    ensures { (conflict : X → X → Bool) (s g : List X) → HasNoRepeats s
        → (Contains (groups_of conflict s) g ↔ IsGroup conflict s g) }
{}

/// No group is listed twice.
#[tactic(auto, using(crate::proofs::Groups::groups_once))]
pub fn groups_stand_once<X>()
    ensures { (conflict : X → X → Bool) (s : List X) → HasNoRepeats s
        → HasNoRepeats (groups_of conflict s) }
{}

/// Different groups of a list have different identifiers.
#[tactic(auto, using(crate::proofs::Identifiers::identifiers_apart))]
pub fn identifiers_differ<X>()
    ensures { (conflict : X → X → Bool) (name : X → Name) (s g h : List X) → HasNoRepeats s
        → ((x y : X) → Contains s x → Contains s y → name x ≡ name y → x ≡ y)
        → IsGroup conflict s g → IsGroup conflict s h
        → identifier conflict name s g ≡ identifier conflict name s h → g ≡ h }
{}

/// The group with an identifier, if there is one, consists of the members that conflict with no
/// member which the identifier names. So one filter and one comparison find it.
#[tactic(auto, using(crate::proofs::Resolve::found_by_one_filter))]
pub fn a_named_group_is_found_by_one_filter<X>()
    ensures { (conflict : X → X → Bool) (name : X → Name) (s : List X) (id : List Name)
        → HasNoRepeats s
        → ((x y : X) → Contains s x → Contains s y → name x ≡ name y → x ≡ y)
        → ((x y : X) → Contains s x → Contains s y → conflict x y ≡ conflict y x)
        → group_named conflict name s id
        ≡ (if same_names (identifier conflict name s (compatible_with_named conflict name s id)) id
        then Some (compatible_with_named conflict name s id) else None) }
{}

/// The number of groups never falls when members are added.
#[tactic(auto, using(crate::proofs::Growth::groups_of_part))]
pub fn groups_never_get_fewer<X>()
    ensures { (conflict : X → X → Bool) (part whole : List X) → HasNoRepeats part
        → HasNoRepeats whole
        → ((x : X) → Contains part x → Contains whole x)
        → ((x y : X) → Contains whole x → Contains whole y → conflict x y ≡ conflict y x)
        → ((x : X) → Contains whole x → conflict x x ≡ false)
        → length (groups_of conflict part) ≤ length (groups_of conflict whole) }
{}

// ---- bases and conflicts

/// Two puts differ on a key exactly where they give one key different values.
pub fn puts_differ_on_a_key()
    ensures { (b c : Body) → (differ_on_a_key b c ≡ true)
        ↔ ((key : Bytes) × (x : Value) × (y : Value)
        × (value_of_body key b ≡ Some x) × (value_of_body key c ≡ Some y) × (x ≡ y → ⊥)) }
{}

/// The base of an operation is the group of what it knows that has the identifier which it names.
pub fn base_is_the_named_group()
    ensures { (h : List Op) (b : Op) (g : List Op) → IsHistory h → Contains h b
        → ((base h b ≡ Some g)
        ↔ (IsGroup (conflict h) (known h b) g
        × (identifier (conflict h) name_of (known h b) g ≡ version_of_body b.body))) }
{}

/// Conflict goes both ways, and nothing that has a base conflicts with itself.
#[tactic(auto, using(crate::proofs::Relation::conflict_symmetric, crate::proofs::Relation::conflict_self))]
pub fn conflict_is_symmetric_and_never_with_itself()
    ensures symmetric { (h : List Op) (a b : Op) → conflict h a b ≡ conflict h b a }
    ensures never_with_itself { (h : List Op) (b : Op) (g : List Op) → IsHistory h → Contains h b
        → base h b ≡ Some g → conflict h b b ≡ false }
{}

/// A part of a history agrees with the whole on bases and on conflicts.
#[tactic(auto, using(crate::proofs::Agreement::base_in_part, crate::proofs::Agreement::conflict_in_part))]
pub fn a_part_agrees_with_the_whole()
    ensures bases { (k h : List Op) (b : Op) → IsPartOf k h → Contains k b → base k b ≡ base h b }
    ensures conflicts { (k h : List Op) (a b : Op) → IsPartOf k h → Contains k a → Contains k b
        → conflict k a b ≡ conflict h a b }
{}

/// Two histories that agree on an operation and on all before it agree on its base.
#[tactic(auto, using(crate::proofs::Parts::base_by_past))]
pub fn base_is_decided_by_the_past()
    ensures { (h k : List Op) (b : Op) → IsHistory h → IsHistory k → Contains h b
        → ((x : Op) → Contains h x → IsTrue (is_past b x) → Contains k x)
        → base h b ≡ base k b }
{}

/// Two histories that agree on two operations and on all before these agree on whether the two
/// conflict.
#[tactic(auto, using(crate::proofs::Parts::conflict_by_past))]
pub fn conflict_is_decided_by_the_past()
    ensures { (h k : List Op) (a b : Op) → IsHistory h → IsHistory k → Contains h a → Contains h b
        → ((x : Op) → Contains h x → IsTrue (is_past a x || is_past b x) → Contains k x)
        → conflict h a b ≡ conflict k a b }
{}

/// Each group of a causally closed list holds the base of each of its members.
pub fn groups_hold_their_bases()
    ensures { (h s g : List Op) → IsHistory h → IsGroup (conflict h) s g
        → ((x : Op) → Contains s x → Contains h x)
        → ((x u : Op) → Contains s x → Contains (known h x) u → Contains s u)
        → (a u : Op) → Contains g a → Contains (members (base h a)) u → Contains g u }
{}

/// A change that has a base conflicts with each change that it knows and that isn't in the base:
/// its author saw that one, and did not build on it.
pub fn what_is_not_built_on_is_in_conflict()
    ensures { (h : List Op) (a b : Op) (g : List Op) → IsHistory h → Contains h b
        → base h b ≡ Some g → Contains (known h b) a → (Contains g a → ⊥) → conflict h a b ≡ true }
{}

/// An operation conflicts with another exactly where it conflicts directly with that one or its
/// base, or a member of its own base conflicts with it.
#[tactic(auto, using(crate::proofs::Nested::conflict_from_base))]
pub fn conflicts_follow_from_the_base()
    ensures { (h : List Op) (a b : Op) → IsHistory h → Contains h a
        → conflict h a b
        ≡ (list_any (direct_conflict a) (with_base (base h) b)
        || list_any (λ x. conflict h x b) (members (base h a))) }
{}

// ---- the keys of puts

/// A put gives 1 to 16 attributes, whose keys differ.
pub fn keys_of_a_put_differ()
    ensures { (pairs : List Attr) → are_pairs pairs ≡ true
        → (1 ≤ length pairs) × (length pairs ≤ 16)
        × HasNoRepeats (map (λ attr. attr.0) pairs) }
{}

/// With one change more the puts have as many keys more as it gives new ones. Of a put each of its
/// attributes counts whose key is new.
pub fn a_change_adds_its_new_keys()
    ensures keys { (k : List Op) (op : Op)
        → length (keys_of (k ++ op ∷ [])) ≡ length (keys_of k) + length (new_keys k op) }
    ensures of_a_put { (k : List Op) (op : Op) → are_pairs (pairs_of_body op.body) ≡ true
        → length (keys_of (k ++ op ∷ []))
        ≡ length (keys_of k)
        + count_by (λ attr. not (list_any (bytes_eq attr.0) (keys_of k))) (pairs_of_body op.body) }
{}

// ---- versions

/// In whatever order its operations are listed, a history has the same versions of each object.
#[tactic(auto, using(crate::proofs::Versions::versions_same))]
pub fn versions_in_any_order()
    ensures { (k h : List Op) (object : Name) → AreSame k h
        → versions k object ≡ versions h object }
{}

/// The operations of a group that could decide a key give it one value.
pub fn deciding_operations_agree()
    ensures { (h : List Op) (object : Name) (g : List Op) (key : Bytes) (a b : Op) → IsHistory h
        → Contains (groups h object) g
        → Contains g a → IsTrue (decides key g a) → Contains g b → IsTrue (decides key g b)
        → value_of_body key a.body ≡ value_of_body key b.body }
{}

/// In a group in causal order the last put of a key decides its value.
pub fn the_last_put_of_a_key_decides()
    ensures { (h g : List Op) (initial : List Attr) (key : Bytes)
        → is_compatible (conflict h) g ≡ true → IsCausallyOrdered g
        → ((x : Op) → Contains g x → before x x ≡ false)
        → value_of_key initial g key ≡ value_by key initial (find (gives key) (reverse g)) }
{}

/// In whatever order the operations of a group are listed, it has the same attributes, and the same
/// is shown of it, where those that could decide a key agree.
pub fn a_group_in_any_order()
    ensures attributes { (initial : List Attr) (f g : List Op)
        → ((a : Op) → Contains f a ↔ Contains g a)
        → ((key : Bytes) (a b : Op) → Contains f a → Contains f b
        → IsTrue (decides key f a) → IsTrue (decides key f b)
        → value_of_body key a.body ≡ value_of_body key b.body)
        → attributes initial f ≡ attributes initial g }
    ensures shown { (initial : List Attr) (f g : List Op)
        → ((a : Op) → Contains f a ↔ Contains g a)
        → ((key : Bytes) (a b : Op) → Contains f a → Contains f b
        → IsTrue (decides key f a) → IsTrue (decides key f b)
        → value_of_body key a.body ≡ value_of_body key b.body)
        → shown_of initial f ≡ shown_of initial g }
{}

/// Where two histories agree on the creation, on the operations of a group and on all before these,
/// the same is shown of the group of the one and the group of the other with the same names.
#[tactic(auto, using(crate::proofs::Attributes::same_attributes))]
pub fn a_group_is_shown_the_same_everywhere()
    ensures { (h k : List Op) (object : Name) (f g : List Op) → IsHistory h → IsHistory k
        → Contains (groups h object) f → Contains (groups k object) g
        → map name_of f ≡ map name_of g
        → creation_of h object ≡ creation_of k object
        → ((a x : Op) → Contains f a → Contains h x → IsTrue (is_past a x) → Contains k x)
        → (version_of h object f).shown ≡ (version_of k object g).shown }
{}

// ---- drops

/// A group with a drop is shown as gone, in any listing and any history. Any other group shows its
/// attributes.
pub fn a_group_with_a_drop_is_gone()
    ensures gone { (h : List Op) (object : Name) (g : List Op) (a : Op) → Contains g a
        → IsTrue (is_drop_body a.body) → (version_of h object g).shown ≡ Gone }
    ensures dropped { (h : List Op) (object : Name) (g : List Op)
        → (version_of h object g).shown ≡ Gone
        → (a : Op) × Contains g a × IsTrue (is_drop_body a.body) }
    ensures others { (h : List Op) (object : Name) (g : List Op) → holds_drop g ≡ false
        → (version_of h object g).shown
        ≡ Attrs (attributes (initial_of (creation_of h object)) g) }
{}

/// A put conflicts with each concurrent drop. Two drops don't conflict directly.
pub fn a_put_conflicts_with_a_concurrent_drop()
    ensures put_and_drop { (h : List Op) (a b : Op) → IsTrue (is_put_body a.body)
        → IsTrue (is_drop_body b.body) → IsTrue (concurrent a b) → conflict h a b ≡ true }
    ensures two_drops { (a b : Op) → IsTrue (is_drop_body a.body) → IsTrue (is_drop_body b.body)
        → direct_conflict a b ≡ false }
{}

/// A drop is the end of its version: each put of a group with a drop is in the drop's base.
pub fn a_drop_ends_its_version()
    ensures { (h : List Op) (object : Name) (g : List Op) (a d : Op) → IsHistory h → IsFounded h
        → Contains (groups h object) g → Contains g a → IsTrue (is_put_body a.body)
        → Contains g d → IsTrue (is_drop_body d.body) → Contains (members (base h d)) a }
{}

/// Nothing is lost: each change is in a group, so in a version. A version with a put that is in no
/// drop's base shows its attributes.
pub fn nothing_is_lost()
    ensures stands { (h : List Op) (object : Name) (a : Op) → IsHistory h → IsFounded h
        → Contains (changes_on h object) a
        → (g : List Op) × Contains (groups h object) g × Contains g a }
    ensures shown { (h : List Op) (object : Name) (g : List Op) (a : Op)
        → IsHistory h → IsFounded h → Contains (groups h object) g → Contains g a
        → IsTrue (is_put_body a.body)
        → ((d : Op) → Contains h d → IsTrue (is_drop_body d.body)
        → Contains (members (base h d)) a → ⊥)
        → (version_of h object g).shown
        ≡ Attrs (attributes (initial_of (creation_of h object)) g) }
{}

/// The identifiers of an object's versions increase strictly.
#[tactic(auto, using(crate::proofs::Versions::identifiers_rise))]
pub fn identifiers_rise()
    ensures { (h : List Op) (object : Name) → IsHistory h
        → IsStrictlySortedBy id_cmp (map (λ version. version.id) (versions h object)) }
{}

/// Each group of all changes of an object is shown exactly once.
#[tactic(auto, using(crate::proofs::Versions::groups_once, crate::proofs::Versions::each_shown))]
pub fn each_group_is_shown_once()
    ensures groups { (h : List Op) (object : Name) → IsHistory h → HasNoRepeats (groups h object) }
    ensures shown { (h : List Op) (object : Name)
        → IsPermutation (map (version_of h object) (groups h object)) (versions h object) }
{}

/// An object never has fewer versions when operations are added.
#[tactic(auto, using(crate::proofs::Versions::versions_of_part))]
pub fn versions_never_get_fewer()
    ensures { (k h : List Op) (object : Name) → IsPartOf k h → IsFounded h
        → length (versions k object) ≤ length (versions h object) }
{}

/// The operations on an object alone decide everything about it: what an operation knows, bases,
/// conflicts, versions, and whether its base or a limit on the object refuses a change.
#[tactic(auto, using(crate::proofs::Objects::known_alone, crate::proofs::Objects::base_alone, crate::proofs::Objects::conflict_alone, crate::proofs::Objects::groups_alone, crate::proofs::Objects::versions_alone, crate::proofs::Objects::conditions_alone))]
pub fn an_object_stands_alone()
    ensures known { (h : List Op) (object : Name) (b : Op) → IsTrue (is_on object b)
        → known (operations_on h object) b ≡ known h b }
    ensures base { (h : List Op) (object : Name) (b : Op) → IsTrue (is_on object b)
        → base (operations_on h object) b ≡ base h b }
    ensures conflict { (h : List Op) (object : Name) (a b : Op) → IsTrue (is_on object a)
        → IsTrue (is_on object b) → conflict (operations_on h object) a b ≡ conflict h a b }
    ensures groups { (h : List Op) (object : Name)
        → groups (operations_on h object) object ≡ groups h object }
    ensures versions { (h : List Op) (object : Name)
        → versions (operations_on h object) object ≡ versions h object }
    ensures conditions { (b : LimitValues) (h : List Op) (object : Name) (op : Op)
        → IsTrue (is_on object op)
        → version_conditions b (operations_on h object) op ≡ version_conditions b h op }
{}

// ---- records

/// The operations of a legal record are a history, in causal order.
#[tactic(auto, using(crate::proofs::Founded::history_if_legal, crate::proofs::Founded::ordered_if_legal))]
pub fn legal_records_are_histories()
    ensures history { (b : LimitValues) (r : List Entry) → IsLegal b r → IsHistory (operations r) }
    ensures ordered { (b : LimitValues) (r : List Entry) → IsLegal b r
        → IsCausallyOrdered (operations r) }
{}

/// Nothing comes after the end of a record: a legal record has at most one end, as its last entry.
#[tactic(auto, using(crate::proofs::Ended::nothing_after))]
pub fn nothing_comes_after_the_end()
    ensures { (b : LimitValues) (q s : List Entry) (count : ℕ) → IsLegal b (q ++ Next count ∷ s)
        → s ≡ [] }
{}

/// Two legal records with the same operations, in any order, have the same bases, conflicts,
/// groups, identifiers and versions.
pub fn legal_records_with_the_same_operations_agree()
    ensures bases { (q r : List Entry) (b : Op) → HoldTheSame q r → Contains (operations q) b
        → base (operations q) b ≡ base (operations r) b }
    ensures conflicts { (q r : List Entry) (a b : Op) → HoldTheSame q r
        → Contains (operations q) a → Contains (operations q) b
        → conflict (operations q) a b ≡ conflict (operations r) a b }
    ensures groups { (q r : List Entry) (object : Name) → HoldTheSame q r
        → groups (operations q) object ≡ groups (operations r) object }
    ensures identifiers { (q r : List Entry) (object : Name) (g : List Op) → HoldTheSame q r
        → Contains (groups (operations q) object) g
        → (version_of (operations q) object g).id ≡ (version_of (operations r) object g).id }
    ensures shown { (q r : List Entry) (object : Name) (g : List Op) → HoldTheSame q r
        → Contains (groups (operations q) object) g
        → (version_of (operations q) object g).shown ≡ (version_of (operations r) object g).shown }
    ensures versions { (q r : List Entry) (object : Name) → HoldTheSame q r
        → versions (operations q) object ≡ versions (operations r) object }
{}

/// Each change of a legal record has its object and its base, in which there is no drop.
#[tactic(auto, using(crate::proofs::Founded::founded_if_legal))]
pub fn changes_of_legal_records_are_founded()
    ensures { (b : LimitValues) (r : List Entry) → IsLegal b r → IsFounded (operations r) }
{}
