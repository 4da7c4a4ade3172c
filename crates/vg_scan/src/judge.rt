//! What the text of an entry stands for.
ghost use Rattle.std.specs.Prelude.{◌≡◌, MatchResult};
ghost use Rattle.disk_contents.specs.declared.read_refusal.ReadRefusal.TheVariants.{NoMemory};
ghost use Rattle.meta_model.specs.Standing.{HasTree};
ghost use Rattle.scan_rules.specs.Decision.{Refused};
ghost use Rattle.scan_rules.specs.Readings.{copied};
ghost use Rattle.volume_rules.specs.Rules.{IsAccepted};
ghost use Rattle.vg_scan.specs.Judged.{IsGroupOf, IsRuleRefusal, IsTree, IsTreeRefusal};
ghost use Rattle.vg_scan.specs.Texts.{IsCopyOf, IsStored, IsTextRefusal};

use conf_text::{ConfRefusal, Tree, read_conf};
use disk_contents::ReadRefusal;
use mda_header::Locn;
use mda_ring::{RingRefusal, stored_text};
use meta_model::{Group, GroupRefusal};
use meta_read::{Unknown, group_of};
use scan_rules::{CopyRefusal, GroupCopy};
use sector_base::Text;
use std::alloc::Global;
use vg_check::{Checked, check};

// The copy of a group that these bytes are, which are stored for the entry; or the first refusal, of their checksum, of
// their text's grammar, its keys and its rules. Else memory is wanting.
pub(crate) fn judge(
    alloc: Global,
    locn: Locn,
    bytes: Vec<u8>,
) -> Result<Result<GroupCopy, CopyRefusal>, ReadRefusal>
    ensures { MatchResult result
        (λ judged. MatchResult judged
        (λ copy. IsStored locn bytes.items (copied copy))
        (λ refusal. IsStored locn bytes.items (Refused refusal)))
        (λ refusal. refusal ≡ NoMemory) }
{
    match stored_text(bytes, locn) {
        Ok(text) => judge_text(alloc, text),
        Err(RingRefusal::SumDiffers { said, found }) => {
            Ok(Err(CopyRefusal::SumDiffers(said, found)))
        }
        Err(_) => Err(ReadRefusal::NoMemory),
    }
}

// The copy with this text.
fn judge_text(alloc: Global, text: Text) -> Result<Result<GroupCopy, CopyRefusal>, ReadRefusal>
    ensures { MatchResult result
        (λ judged. MatchResult judged
        (λ copy. (copy.text ≡ text) × IsCopyOf text copy.group copy.passed)
        (IsTextRefusal text))
        (λ refusal. refusal ≡ NoMemory) }
{
    match group_in_text(alloc, &text)? {
        Ok((group, passed)) => Ok(Ok(GroupCopy {
            group,
            text,
            passed,
        })),
        Err(refusal) => Ok(Err(refusal)),
    }
}

// The group that the text stands for, and the paths of its keys that are passed over.
fn group_in_text(
    alloc: Global,
    text: &Text,
) -> Result<Result<(Checked, Unknown), CopyRefusal>, ReadRefusal>
    ensures { MatchResult result
        (λ judged. MatchResult judged (λ found. IsCopyOf text.now found.0 found.1) (IsTextRefusal text.now))
        (λ refusal. refusal ≡ NoMemory) }
{
    match read_conf(alloc, text.as_bytes()) {
        Ok(tree) => group_in_tree(alloc, &tree),
        Err(ConfRefusal::NoMemory) => Err(ReadRefusal::NoMemory),
        Err(refusal) => Ok(Err(CopyRefusal::TextRefused(refusal))),
    }
}

// The same of the text's tree.
fn group_in_tree(
    alloc: Global,
    tree: &Tree<'_>,
) -> Result<Result<(Checked, Unknown), CopyRefusal>, ReadRefusal>
    requires { IsTree tree.now }
    ensures { MatchResult result
        (λ judged. MatchResult judged (λ found. IsGroupOf tree.now found.0 found.1) (IsTreeRefusal tree.now))
        (λ refusal. refusal ≡ NoMemory) }
{
    match group_of(alloc, tree) {
        Ok((group, passed)) => Ok(checked_with(group, passed)),
        Err(GroupRefusal::NoMemory) => Err(ReadRefusal::NoMemory),
        Err(refusal) => Ok(Err(CopyRefusal::GroupRefused(refusal))),
    }
}

// The group where it keeps all rules, else the first that it breaks.
fn checked_with(group: Group, passed: Unknown) -> Result<(Checked, Unknown), CopyRefusal>
    requires { HasTree group }
    ensures { MatchResult result
        (λ found. (found.0 ≡ group) × IsAccepted group × (found.1 ≡ passed))
        (IsRuleRefusal group) }
{
    match check(group) {
        Ok(checked) => Ok((checked, passed)),
        Err(refused) => Err(CopyRefusal::RuleBroken(refused.rule)),
    }
}
