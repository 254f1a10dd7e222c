//! Names of operations.

ghost use Rattle.std.specs.Prelude.{◌≡◌, ◌↔◌, ℕ, true, IfSome, IsSome};
ghost use Rattle.base_types.specs.Names.{is_op_name, is_site, is_seq};

use std::marker::Model;

/// The greatest number of a site. Sites are numbered from 1.
pub const MAX_SITE: u32 = 256;

/// The greatest number of an operation. A site numbers its operations from 1.
pub const MAX_SEQ: u32 = 16_384;

/// The name of an operation, and of the object that a creation makes: a site and the operation's
/// number among those of the site. Names are ordered by site, then by number.
#[derive(Clone, Copy, Debug, PartialEq, Eq, PartialOrd, Ord, Hash)]
pub struct OpName {
    site: u32,
    seq: u32,
}

impl Model for OpName {
    ghost Value = { ℕ × ℕ };

    ghost view = { λ name. (name.site, name.seq) };

    ghost invariant = { λ name. is_op_name (name.site, name.seq) ≡ true };

    ghost inverse = { λ pair. record { site = pair.0; seq = pair.1 } };
}

impl OpName {
    /// The name of a site's operation. Returns `None` unless the site is from 1 to 256 and the
    /// number from 1 to 16,384.
    pub fn new(site: u32, seq: u32) -> Option<OpName>
        ensures value { IfSome result (λ name. name ≡ (site, seq)) }
        ensures in_range { IsSome result ↔ (is_op_name (site, seq) ≡ true) }
    {
        if 1 <= site && site <= MAX_SITE && 1 <= seq && seq <= MAX_SEQ {
            Some(OpName { site, seq })
        } else {
            None
        }
    }

    /// The site, from 1 to 256.
    pub fn site(self) -> u32
        ensures value { result ≡ self.0 }
        ensures range { is_site self.0 ≡ true }
    {
        self.site
    }

    /// The number among the site's operations, from 1 to 16,384.
    pub fn seq(self) -> u32
        ensures value { result ≡ self.1 }
        ensures range { is_seq self.1 ≡ true }
    {
        self.seq
    }
}
