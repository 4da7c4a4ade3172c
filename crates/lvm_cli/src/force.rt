//! The word that lets a run take disks that are in use.
ghost use Rattle.std.specs.Prelude.{◌≡◌, ◌↔◌, IsTrue};
ghost use Rattle.command_table.specs.Options.{words_of};
ghost use Rattle.lvm_cli.specs.Force.{behind_force, is_forced};

/// It stands before all other words.
const FORCE: &str = "--force";

/// Whether the first word is `--force`, which is then taken off.
pub fn take_force(words: &mut Vec<String>) -> bool
    ensures forced { result ≡ is_forced (words_of words.old.items) }
    ensures behind { words_of words.new.items ≡ behind_force (words_of words.old.items) }
{
    let forced = words.first().is_some_and(|word| word.as_str() == FORCE);
    if forced {
        words.remove(0);
    }
    forced
}
