//! What a text gives that a group is restored from.
ghost use Rattle.std.specs.Prelude.{IfOk};
ghost use Rattle.meta_model.specs.Standing.{HasTree};
ghost use Rattle.group_plan.specs.Backup.{GroupGives, IsBackup, IsTree, TreeGives};

use crate::copied::copied_bytes;
use conf_text::{ConfRefusal, Tree, read_conf};
use meta_model::{Group, GroupRefusal};
use meta_read::group_of;
use sector_base::Text;
use std::alloc::{AllocError, Global};
use vg_check::{Checked, check};
use volume_rules::Rule;

/// What a text gives.
#[derive(Debug, Drop)]
pub enum Backup {
    /// No group: its grammar or its keys are refused by this kind.
    Unread(Text),
    /// A group that breaks this rule first.
    Broken(Group, Rule),
    /// A group that keeps all rules.
    Sound(Checked),
}

/// What this text gives.
///
/// # Errors
///
/// Where memory is wanting.
pub fn read_backup(alloc: Global, text: &Text) -> Result<Backup, AllocError>
    ensures { IfOk result (IsBackup text.now) }
{
    match read_conf(alloc, text.as_bytes()) {
        Ok(tree) => tree_gives(alloc, &tree),
        Err(ConfRefusal::NoMemory) => Err(AllocError),
        Err(refusal) => {
            let kind = copied_bytes(alloc, refusal.kind().as_bytes())?;
            Ok(Backup::Unread(kind))
        }
    }
}

// What the text's tree gives.
fn tree_gives(alloc: Global, tree: &Tree<'_>) -> Result<Backup, AllocError>
    requires { IsTree tree.now }
    ensures { IfOk result (TreeGives tree.now) }
{
    match group_of(alloc, tree) {
        Ok((group, _)) => Ok(group_gives(group)),
        Err(GroupRefusal::NoMemory) => Err(AllocError),
        Err(refusal) => {
            let kind = copied_bytes(alloc, refusal.kind().as_bytes())?;
            Ok(Backup::Unread(kind))
        }
    }
}

// What the tree's group gives.
fn group_gives(group: Group) -> Backup
    requires { HasTree group }
    ensures { GroupGives group result }
{
    match check(group) {
        Ok(group) => Backup::Sound(group),
        Err(refused) => Backup::Broken(refused.group, refused.rule),
    }
}
