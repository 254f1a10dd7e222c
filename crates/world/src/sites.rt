//! Which sites of a room are in use.

ghost use Rattle.std.specs.Prelude.{◌≡◌, ◌≤◌, ◌==◌, ℕ, IfOk, Some, false, true, if◌then◌else◌};
ghost use Rattle.base_types.specs.declared.op_name.TheConstants.{MAX_SITE};
ghost use Rattle.world.specs.Alone.{use_after_move};
ghost use Rattle.world.specs.steps.State.{is_used, no_sites};

use base_types::{MAX_SITE, NoMemory};
use std::alloc::Global;
use std::marker::Model;

/// The sites of a room that are in use. Contracts see for each site whether it is.
#[derive(Drop)]
pub(crate) struct SitesInUse {
    used: Vec<bool>,
}

impl Model for SitesInUse {
    ghost use Rattle.std.specs.Prelude.{◌≡◌, ◌+◌, List, Bool, length};
    ghost use Rattle.base_types.specs.declared.op_name.TheConstants.{MAX_SITE};

    ghost Value = { List Bool };

    ghost view = { λ s. s.used.items };

    ghost invariant = { λ s. length s.used.items ≡ MAX_SITE + 1 };
}

impl SitesInUse {
    /// No site is in use.
    pub(crate) fn none(alloc: Global) -> Result<SitesInUse, NoMemory>
        ensures { IfOk result (λ sites. sites ≡ no_sites) }
    {
        let used = vec![in alloc; false; MAX_SITE as usize + 1]?;
        Ok(SitesInUse { used })
    }

    /// Is the site in use?
    pub(crate) fn has(&self, site: u32) -> bool
        ensures { result ≡ is_used self.now site }
    {
        match self.used.get(site as usize) {
            Some(used) => *used,
            None => false,
        }
    }

    /// Marks the site as in use. No allocation.
    pub(crate) fn add(&mut self, site: u32)
        requires { site ≤ MAX_SITE }
        ensures { is_used self.new
            ≡ (λ other. if site == other then true else is_used self.old other) }
    {
        self.used[site as usize] = true;
    }

    /// Marks the site as free. No allocation.
    pub(crate) fn remove(&mut self, site: u32)
        ensures { is_used self.new
            ≡ (λ other. if site == other then false else is_used self.old other) }
    {
        if let Some(used) = self.used.get_mut(site as usize) {
            *used = false;
        }
    }

    /// Follows the move of a session that was in as a site, or in no room. No allocation.
    pub(crate) fn follow(&mut self, now: Option<Option<u32>>, was: Option<u32>)
        requires { (site : ℕ) → now ≡ Some (Some site) → site ≤ MAX_SITE }
        ensures { is_used self.new ≡ use_after_move now was (is_used self.old) }
    {
        match (now, was) {
            (Some(Some(site)), _) => self.add(site),
            (Some(None), Some(site)) => self.remove(site),
            _ => {}
        }
    }
}
