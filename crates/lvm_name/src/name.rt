//! Names of groups and of volumes.
ghost use Rattle.std.specs.Prelude.{◌≡◌, ℕ, List, None, IfOk, is_none, nat_eq};
ghost use Rattle.std.specs.Cmp.Lexicographic.{pointwise};
ghost use Rattle.std.specs.Cmp.Rules.{comparing, hashing};
ghost use Rattle.std.specs.Hash as fed;
ghost use Rattle.std.proofs.Common.{rules};
ghost use Rattle.lvm_name.specs.Names.{group_name_refusal, volume_name_refusal, any_name_refusal};
ghost use Rattle.lvm_name.specs.Naming.{Names};

use crate::NameRefusal;
use crate::rule::{is_key_beside_group, is_reserved_for_lvm, refusal_of};
use std::alloc::{AllocError, Global};
use std::hash::{Hash, Hasher};
use std::marker::Model;

/// The name of a volume group. Contracts see the list of its bytes.
#[derive(Debug, Drop)]
pub struct GroupName {
    bytes: Vec<u8>,
}

impl Model for GroupName {
    ghost Value = { List ℕ };

    ghost view = { λ name. name.bytes.items };

    ghost invariant = { λ name. group_name_refusal name.bytes.items ≡ None };
}

/// The name of a logical volume, or of a physical volume in the text of its group. Contracts see the list of its bytes.
#[derive(Debug, Drop)]
pub struct VolumeName {
    bytes: Vec<u8>,
}

impl Model for VolumeName {
    ghost Value = { List ℕ };

    ghost view = { λ name. name.bytes.items };

    ghost invariant = { λ name. any_name_refusal name.bytes.items ≡ None };
}

impl GroupName {
    /// The name with these bytes. The five keys that stand beside the group in its text are reserved.
    ///
    /// # Errors
    ///
    /// The first of the tests, in the order of `NameRefusal`, that the text fails; `NoMemory` where memory is wanting.
    pub fn new(alloc: Global, text: &[u8]) -> Result<Self, NameRefusal>
        ensures { Names group_name_refusal result text.now }
    {
        match refusal_of(text, is_key_beside_group(text)) {
            Some(refusal) => Err(refusal),
            None => Ok(GroupName {
                bytes: Vec::from_slice(alloc, text)?,
            }),
        }
    }

    /// Whether a text is such a name.
    pub fn accepts(text: &[u8]) -> bool
        ensures { result ≡ is_none (group_name_refusal text.now) }
    {
        refusal_of(text, is_key_beside_group(text)).is_none()
    }

    /// The same name again.
    ///
    /// # Errors
    ///
    /// Where memory is wanting.
    pub fn try_copy(&self, alloc: Global) -> Result<Self, AllocError>
        ensures { IfOk result (λ copy. copy ≡ self.now) }
    {
        Ok(GroupName {
            bytes: Vec::from_slice(alloc, &self.bytes)?,
        })
    }

    /// Its bytes.
    pub fn as_bytes(&self) -> &[u8]
        ensures { result.now ≡ self.now }
    {
        &self.bytes
    }
}

impl PartialEq for GroupName {
    ghost eq = { pointwise nat_eq };

    ghost laws = { Prim.search (comparing, rules) };

    fn eq(&self, other: &GroupName) -> bool {
        self.bytes == other.bytes
    }
}

impl Eq for GroupName {
    ghost laws = { Prim.search (comparing, rules) };
}

impl VolumeName {
    /// The name with these bytes, given by a user. What lvm2 names its hidden volumes by is reserved.
    ///
    /// # Errors
    ///
    /// The first of the tests, in the order of `NameRefusal`, that the text fails; `NoMemory` where memory is wanting.
    pub fn new(alloc: Global, text: &[u8]) -> Result<Self, NameRefusal>
        ensures { Names volume_name_refusal result text.now }
    {
        match refusal_of(text, is_reserved_for_lvm(text)) {
            Some(refusal) => Err(refusal),
            None => Ok(VolumeName {
                bytes: Vec::from_slice(alloc, text)?,
            }),
        }
    }

    /// Whether a text is such a name that users may give.
    pub fn accepts(text: &[u8]) -> bool
        ensures { result ≡ is_none (volume_name_refusal text.now) }
    {
        refusal_of(text, is_reserved_for_lvm(text)).is_none()
    }

    /// The name with these bytes, as it stands in a text. None is reserved.
    ///
    /// # Errors
    ///
    /// The first of the tests, in the order of `NameRefusal`, that the text fails; `NoMemory` where memory is wanting.
    pub fn any(alloc: Global, text: &[u8]) -> Result<Self, NameRefusal>
        ensures { Names any_name_refusal result text.now }
    {
        match refusal_of(text, false) {
            Some(refusal) => Err(refusal),
            None => Ok(VolumeName {
                bytes: Vec::from_slice(alloc, text)?,
            }),
        }
    }

    /// The same name again.
    ///
    /// # Errors
    ///
    /// Where memory is wanting.
    pub fn try_copy(&self, alloc: Global) -> Result<Self, AllocError>
        ensures { IfOk result (λ copy. copy ≡ self.now) }
    {
        Ok(VolumeName {
            bytes: Vec::from_slice(alloc, &self.bytes)?,
        })
    }

    /// Its bytes.
    pub fn as_bytes(&self) -> &[u8]
        ensures { result.now ≡ self.now }
    {
        &self.bytes
    }
}

impl PartialEq for VolumeName {
    ghost eq = { pointwise nat_eq };

    ghost laws = { Prim.search (comparing, rules) };

    fn eq(&self, other: &VolumeName) -> bool {
        self.bytes == other.bytes
    }
}

impl Eq for VolumeName {
    ghost laws = { Prim.search (comparing, rules) };
}

impl Hash for VolumeName {
    ghost hash_input = { λ name. fed.slice fed.u8 name };

    ghost respects_eq = { Prim.search (hashing, rules) };

    fn hash<H: Hasher>(&self, state: &mut H) {
        self.bytes.hash(state);
    }
}
