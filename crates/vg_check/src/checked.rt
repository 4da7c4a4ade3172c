//! Groups that keep all rules.
ghost use Rattle.std.specs.Prelude.{◌≡◌, IfOk};
ghost use Rattle.meta_model.specs.Standing.{HasTree};
ghost use Rattle.volume_rules.specs.Rules.{IsAccepted};

use meta_model::Group;
use std::alloc::{AllocError, Global};
use std::marker::Model;

/// A group that keeps all rules, and that some metadata text stands for: one that `check` has taken, or that is proved to.
#[derive(Debug, Drop)]
pub struct Checked {
    group: Group,
}

impl Model for Checked {
    ghost use Rattle.meta_model.specs.declared.group.Group.{Group};
    ghost use Rattle.meta_model.specs.Standing.{HasTree};
    ghost use Rattle.volume_rules.specs.Rules.{IsAccepted};

    ghost Value = { Group };

    ghost view = { λ checked. checked.group };

    ghost invariant = { λ checked. IsAccepted checked.group × HasTree checked.group };
}

impl Checked {
    /// The group, which is proved to keep all rules, so that nothing is checked.
    pub fn new(group: Group) -> Self
        requires accepted { IsAccepted group }
        requires stands { HasTree group }
        ensures { result ≡ group }
    {
        Checked { group }
    }

    /// The group.
    pub fn group(&self) -> &Group
        ensures group { result.now ≡ self.now }
        ensures accepted { IsAccepted result.now }
        ensures stands { HasTree result.now }
    {
        &self.group
    }

    /// The group by value.
    pub fn into_group(self) -> Group
        ensures group { result ≡ self }
        ensures accepted { IsAccepted result }
        ensures stands { HasTree result }
    {
        self.group
    }

    /// The same group again.
    ///
    /// # Errors
    ///
    /// Where memory is wanting.
    pub fn copy(&self, alloc: Global) -> Result<Checked, AllocError>
        ensures { IfOk result (λ copy. copy ≡ self.now) }
    {
        Ok(Checked {
            group: self.group.try_copy(alloc)?,
        })
    }
}
