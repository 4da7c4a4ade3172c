//! The rules in their order.
ghost use Rattle.std.specs.Prelude.{◌≡◌, ◌≤◌, MatchResult, vec_len};
ghost use Rattle.meta_model.specs.Runs.{run_room};
ghost use Rattle.volume_rules.specs.Rules.{IsAccepted, KeepsBelow};
ghost use Rattle.vg_check.specs.FirstOffences.{IsFirstOffence};

use crate::apart::legs_lie_apart;
use crate::counts::{segments_are_few, volumes_are_few};
use crate::depth::depth_is_allowed;
use crate::devices::pv_beyond_device;
use crate::follows::lv_with_gap;
use crate::ids::ids_differ;
use crate::legs::leg_outside;
use crate::mirrors::broken_mirror;
use crate::moved::stray_moved;
use crate::moves::move_is_allowed;
use crate::moving::locked_volumes_move;
use crate::numbers::numbers_are_allowed;
use crate::offence::{Offence, refused};
use crate::open_group::OpenGroup;
use crate::stripes::uneven_stripes;
use meta_model::ExtentSpan;
use volume_rules::Rule;

// Examines all rules in their order. An error is the first that the group breaks, with its places.
pub(crate) fn examine(group: &OpenGroup, runs: &mut Vec<ExtentSpan>) -> Result<(), Offence>
    requires { run_room group.now.lvs ≤ vec_len runs.old }
    ensures first { MatchResult result (λ _. IsAccepted group.now) (IsFirstOffence group.now) }
    ensures kept { vec_len runs.new ≡ vec_len runs.old }
{
    examine_group(group, runs)?;
    examine_volumes(group)?;
    examine_legs(group, runs)?;
    examine_moves(group, runs)
}

// Numbers, ids, and how many volumes and segments there are.
fn examine_group(group: &OpenGroup, runs: &mut Vec<ExtentSpan>) -> Result<(), Offence>
    requires { run_room group.now.lvs ≤ vec_len runs.old }
    ensures first { MatchResult result (λ _. KeepsBelow 5 group.now) (IsFirstOffence group.now) }
    ensures kept { vec_len runs.new ≡ vec_len runs.old }
{
    if !numbers_are_allowed(group) {
        return refused(Rule::Numbers, 0, 0);
    }
    if !ids_differ(group, runs) {
        return refused(Rule::Ids, 0, 0);
    }
    if !volumes_are_few(group) {
        return refused(Rule::Volumes, 0, 0);
    }
    if !segments_are_few(group) {
        return refused(Rule::Segments, 0, 0);
    }
    Ok(())
}

// Each volume and each segment by itself.
fn examine_volumes(group: &OpenGroup) -> Result<(), Offence>
    requires { KeepsBelow 5 group.now }
    ensures { MatchResult result (λ _. KeepsBelow 9 group.now) (IsFirstOffence group.now) }
{
    if let Some(at) = pv_beyond_device(group) {
        return refused(Rule::Extents, at, 0);
    }
    if let Some(at) = lv_with_gap(group) {
        return refused(Rule::Follows, at, 0);
    }
    if let Some((at, other)) = uneven_stripes(group) {
        return refused(Rule::Stripes, at, other);
    }
    if let Some((at, other)) = broken_mirror(group) {
        return refused(Rule::Mirrors, at, other);
    }
    Ok(())
}

// What legs lie on, and how deep volumes lie.
fn examine_legs(group: &OpenGroup, runs: &mut Vec<ExtentSpan>) -> Result<(), Offence>
    requires below { KeepsBelow 9 group.now }
    requires room { run_room group.now.lvs ≤ vec_len runs.old }
    ensures first { MatchResult result (λ _. KeepsBelow 13 group.now) (IsFirstOffence group.now) }
    ensures kept { vec_len runs.new ≡ vec_len runs.old }
{
    if let Some((at, other)) = leg_outside(group) {
        return refused(Rule::Within, at, other);
    }
    if !legs_lie_apart(group, runs) {
        return refused(Rule::Apart, 0, 0);
    }
    if !depth_is_allowed(group, runs) {
        return refused(Rule::Depth, 0, 0);
    }
    if let Some((at, other)) = stray_moved(group) {
        return refused(Rule::Moved, at, other);
    }
    Ok(())
}

// The move, and the volumes that are locked for it.
fn examine_moves(group: &OpenGroup, runs: &mut Vec<ExtentSpan>) -> Result<(), Offence>
    requires below { KeepsBelow 13 group.now }
    requires room { run_room group.now.lvs ≤ vec_len runs.old }
    ensures first { MatchResult result (λ _. IsAccepted group.now) (IsFirstOffence group.now) }
    ensures kept { vec_len runs.new ≡ vec_len runs.old }
{
    if !move_is_allowed(group, runs) {
        return refused(Rule::Pvmove, 0, 0);
    }
    if !locked_volumes_move(group, runs) {
        return refused(Rule::Locked, 0, 0);
    }
    Ok(())
}
