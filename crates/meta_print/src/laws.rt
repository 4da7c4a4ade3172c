//! What is printed is read again.
ghost use Rattle.std.specs.Prelude.{ℕ, ◌<◌, ◌^◌};
ghost use Rattle.meta_model.specs.declared.group.Group.{Group};
ghost use Rattle.meta_model.specs.Standing.{HasTree};
ghost use Rattle.meta_print.specs.Layout.{tree_of, backup_of};
ghost use Rattle.meta_print.specs.ReadAgain.{IsReadAs};

/// What is printed of a group for which some tree stands, at a time below 2^64, is a text, and it is read as the group
/// again, with no key passed over. So is the text of a backup.
pub fn what_is_printed_is_read_again()
    ensures committed { (group : Group) (now : ℕ) → now < 2 ^ 64 → HasTree group → IsReadAs (tree_of group now) group }
    ensures backup { (group : Group) (now : ℕ) → now < 2 ^ 64 → HasTree group → IsReadAs (backup_of group now) group }
{}
