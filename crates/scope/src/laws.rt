//! Laws of scopes. These functions have no effect at run time.

ghost use Rattle.std.specs.Prelude.{◌≡◌, ◌∷◌, ◌++◌, true};
ghost use Rattle.base_types.specs.Texts.{Bytes};
ghost use Rattle.base_types.specs.RoomNames.{first_name};
ghost use Rattle.scope.specs.Scopes.{IsQuery, allows, scope_of_target};

/// A session may enter a room only if its request's target is a slash and the name of the first
/// room of its chain, and then nothing or a query.
pub fn only_the_chain_of_the_target()
    ensures { (target name : Bytes) → allows (scope_of_target target) name ≡ true →
        (query : Bytes) × (target ≡ 47 ∷ first_name name ++ query) × IsQuery query }
{}
