//! The logical volumes that users see.
ghost use Rattle.std.specs.Prelude.{◌≡◌, ◌≤◌, ℕ, length, option_map, IfSome};
ghost use Rattle.std.specs.Str.{bytes_eq};
ghost use Rattle.meta_model.specs.declared.lv.Lv.{Lv};
ghost use Rattle.group_edits.specs.Visible.{IsVisible, visible_named};

use lvm_name::VolumeName;
use meta_model::Group;
use sector_base::Text;

/// The number of the visible volume with this name, where there is one.
#[tactic(auto, unfolding(crate::specs::Visible::visible_named))]
pub fn find_visible(group: &Group, name: &Text) -> Option<u32>
    requires { length group.now.lvs ≤ 1024 }
    ensures found { result ≡ option_map (λ (volume : ℕ × Lv). volume.0) (visible_named group.now name.now) }
    ensures visible { IfSome result (IsVisible group.now) }
{
    for number in 0..group.lvs.len() {
        let (own, lv) = group.lvs.get(number);
        if lv.status.is_visible() && is_volume(own, name) {
            return Some(number as u32);
        }
    }
    None
}

// Whether the volume's name is this one.
pub(crate) fn is_volume(own: &VolumeName, name: &Text) -> bool
    ensures { result ≡ bytes_eq own.now name.now }
{
    own.as_bytes() == name.as_bytes()
}
