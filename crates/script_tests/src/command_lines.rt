//! Command lines, and what they name and mean, once each: rows over `lvm_run` show what is refused.
use command_table::{Fault, LineFault};
use line_answers::DiskNames;
use lvm_id::{MemWords, Words64};
use lvm_words::{Task, WordsFault, WordsRefusal, disk_names, fault_of_command_line, read_words};
use std::alloc::{AllocError, Global};
use std::test::Fail;

// The words as a list of their own.
fn list_of(alloc: Global, words: &[&str]) -> Result<Vec<String>, AllocError> {
    let mut list = Vec::new(alloc);
    for word in words {
        list.push(String::from_str(alloc, word)?)?;
    }
    Ok(list)
}

// The names, each with a semicolon behind it.
fn text_of(alloc: Global, names: &DiskNames) -> Result<String, AllocError> {
    let mut text = String::new(alloc);
    for name in names.as_vec() {
        text.push_str(name.as_str())?;
        text.push(';')?;
    }
    Ok(text)
}

#[test]
fn disks_are_named_by_the_pairs_alone(rt: HostRuntime) -> Result<(), Fail> {
    let words = list_of(rt.alloc(), &["-d", "b", "-d", "a", "vgs", "-d", "c"])?;
    let names = disk_names(rt.alloc(), &words)?;
    assert_eq!(rt; text_of(rt.alloc(), &names)?.as_str(), "b;a;");
    let spaced = list_of(rt.alloc(), &["-d", "a b"])?;
    let refusal = disk_names(rt.alloc(), &spaced).err();
    assert_eq!(rt; refusal, Some(WordsRefusal::NoMeaning));
    Ok(())
}

#[test]
fn a_run_has_at_most_64_disks(rt: HostRuntime) -> Result<(), Fail> {
    for (count, fits) in [(64u32, true), (65, false)] {
        let mut words = Vec::new(rt.alloc());
        for number in 0..count {
            words.push(String::from_str(rt.alloc(), "-d")?)?;
            words.push(format!(in rt.alloc(); "disk{number}")?)?;
        }
        match disk_names(rt.alloc(), &words) {
            Ok(names) => assert!(rt; fits && names.len() == count as usize),
            Err(refusal) => assert!(rt; !fits && refusal == WordsRefusal::NoMeaning),
        }
    }
    Ok(())
}

// What the words ask for, in a few words.
fn told(alloc: Global, task: &Task) -> Result<String, AllocError> {
    match task {
        Task::One(line) => {
            let changes = if line.command.changes() {
                "changes"
            } else {
                "reports"
            };
            let draws = if line.id.is_some() { " draws" } else { "" };
            format!(in alloc; "{} {changes}{draws}", line.number)
        }
        Task::Session(session) => {
            let name = str::from_utf8(session.group.as_bytes()).unwrap_or("");
            let threads = if session.disk_threads { " threads" } else { "" };
            let status = if session.status { " status" } else { "" };
            format!(in alloc; "session {name} {}{threads}{status}", session.workers)
        }
        Task::Demo {
            seed,
            lines,
            workers,
        } => format!(in alloc; "demo {seed} {lines} {workers}"),
    }
}

// The same of the words, nothing where they have no meaning.
fn asked_for(alloc: Global, words: &[String], ids: &mut MemWords) -> Result<String, AllocError> {
    match read_words(alloc, words, ids) {
        Ok(asked) => told(alloc, &asked.task),
        Err(_) => Ok(String::new(alloc)),
    }
}

#[test]
fn words_ask_for_a_task_of_their_disks(rt: HostRuntime) -> Result<(), Fail> {
    // What is asked for, empty where the words have no meaning.
    let rows: [(&[&str], &str); 7] = [
        (&["-d", "a", "pvcreate", "a"], "1 changes draws"),
        (&["-d", "a", "vgcfgrestore", "vg0"], "1 changes"),
        (&["-d", "a", "pvmove", "--abort"], "1 changes"),
        (&["-d", "a", "lvs"], "1 reports"),
        (
            &["-d", "a", "session", "vg0", "--workers", "8"],
            "session vg0 8",
        ),
        (&["-d", "a", "demo", "7", "4096", "8"], "demo 7 4096 8"),
        (&["-d", "a", "demo", "7", "4097", "8"], ""),
    ];
    for (words, want) in rows {
        let list = list_of(rt.alloc(), words)?;
        let mut ids = MemWords::new([0, 1, 62, 3, 9].to_vec(rt.alloc())?);
        assert_eq!(rt; asked_for(rt.alloc(), &list, &mut ids)?.as_str(), want);
        let left = if want.ends_with("draws") { 9 } else { 0 };
        assert_eq!(rt; ids.next(), left);
    }
    Ok(())
}

#[test]
fn the_fault_of_a_command_line_is_told(rt: HostRuntime) -> Result<(), Fail> {
    let rows: [(&[&str], WordsFault); 3] = [
        (&["-d", "a", "-d", "a", "lvs"], WordsFault::Disks),
        (&["-d", "a"], WordsFault::Command(LineFault::WrongWords, 0)),
        (
            &["-d", "a", "demo", "1", "0", "1"],
            WordsFault::Command(LineFault::Faulty(Fault::BadCount), 2),
        ),
    ];
    for (words, want) in rows {
        let list = list_of(rt.alloc(), words)?;
        assert_eq!(rt; fault_of_command_line(rt.alloc(), &list)?, Some(want));
    }
    Ok(())
}
