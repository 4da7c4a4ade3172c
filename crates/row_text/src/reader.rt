//! The rows of a file, line by line.
use crate::disks::{disk, disks_like};
use crate::edits::{edit, is_edit};
use crate::enumerations::{open_list, open_version};
use crate::expectations::is_expectation;
use crate::line::{first_word, words_in};
use crate::row::{Act, DiskPlan, Expected, List, Row, Run, Settings, Trial, Version};
use crate::settings::is_setting;
use crate::stop::{Stop, failed, failed_at};
use crate::texts::Texts;
use std::alloc::Global;

/// The rows that were read so far. What is open takes the lines that follow; a version's checks are runs too.
#[derive(Drop)]
pub struct Reader {
    alloc: Global,
    rows: Vec<Row>,
    row: Option<Row>,
    trial: Option<Trial>,
    list: Option<List>,
    version: Option<Version>,
    run: Option<Run>,
    settings: Option<Settings>,
}

impl Reader {
    /// No row.
    pub fn new(alloc: Global) -> Self {
        Reader {
            alloc,
            rows: Vec::new(alloc),
            row: None,
            trial: None,
            list: None,
            version: None,
            run: None,
            settings: None,
        }
    }

    /// Reads a line that defines no text and isn't empty.
    pub fn read(&mut self, texts: &Texts, line: usize, text: &str) -> Result<(), Stop> {
        if let Some(rest) = text.strip_prefix('>') {
            return self.read_output(line, rest);
        }
        if let Some(rest) = text.strip_prefix('<') {
            return self.read_input(line, rest);
        }
        let (word, rest) = first_word(text);
        if is_setting(word) {
            self.read_setting(texts, line, word, rest)
        } else if is_expectation(word) {
            self.read_expectation(texts, line, word, rest)
        } else if is_edit(word) {
            self.read_edit(texts, line, word, rest)
        } else {
            self.read_part(line, word, rest)
        }
    }

    /// All rows, behind the last line, which has this number.
    pub fn finished(self, line: usize) -> Result<Vec<Row>, Stop> {
        let mut reader = self;
        reader.close_row(line)?;
        Ok(reader.rows)
    }

    fn read_output(&mut self, line: usize, text: &str) -> Result<(), Stop> {
        match &mut self.run {
            Some(run) => run.expected.read_output_line(self.alloc, line, text),
            None => Err(failed(self.alloc, line, "output stands behind a run")),
        }
    }

    fn read_input(&mut self, line: usize, text: &str) -> Result<(), Stop> {
        let mut settings = self.open_settings(line)?;
        settings.read_input_line(self.alloc, line, text)?;
        self.settings = Some(settings);
        Ok(())
    }

    fn read_setting(
        &mut self,
        texts: &Texts,
        line: usize,
        word: &str,
        rest: &str,
    ) -> Result<(), Stop> {
        let mut settings = self.open_settings(line)?;
        settings.read(self.alloc, texts, self.disks(), line, word, rest)?;
        self.settings = Some(settings);
        Ok(())
    }

    fn read_expectation(
        &mut self,
        texts: &Texts,
        line: usize,
        word: &str,
        rest: &str,
    ) -> Result<(), Stop> {
        let Some(mut run) = self.run.take() else {
            return Err(failed(self.alloc, line, "what is expected stands behind a run"));
        };
        run.expected
            .read(self.alloc, texts, self.disks(), line, word, rest)?;
        self.run = Some(run);
        Ok(())
    }

    fn read_edit(
        &mut self,
        texts: &Texts,
        line: usize,
        word: &str,
        rest: &str,
    ) -> Result<(), Stop> {
        if self.list.is_some() {
            return Err(failed(self.alloc, line, "an enumeration is ended first, by end"));
        }
        self.close_trial(line)?;
        let edit = edit(self.alloc, texts, self.disks(), line, word, rest)?;
        self.add_act(line, Act::Edit(edit))
    }

    // A line that begins or ends a part of a row.
    fn read_part(&mut self, line: usize, word: &str, rest: &str) -> Result<(), Stop> {
        match word {
            "row" => self.open_row(line, rest),
            "disk" => self.read_disk(line, rest),
            "like" => self.read_like(line, rest),
            "lvm" => self.open_run(line, true, rest),
            "words" => self.open_run(line, false, rest),
            "at" => self.open_list(line, rest),
            "version" => self.open_version(line, rest),
            "end" if self.list.is_some() => self.close_list(line),
            _ => Err(failed_at(self.alloc, line, "no word of a row", word)),
        }
    }

    // The disks of the open row.
    fn disks(&self) -> &[DiskPlan] {
        match &self.row {
            Some(row) => row.disks.as_slice(),
            None => &[],
        }
    }

    // The settings for the next run.
    fn open_settings(&mut self, line: usize) -> Result<Settings, Stop> {
        if let Some(settings) = self.settings.take() {
            return Ok(settings);
        }
        if self.row.is_none() {
            return Err(failed(self.alloc, line, "a row has to be begun first"));
        }
        self.close_run(line)?;
        Ok(Settings::new(self.alloc))
    }

    fn open_row(&mut self, line: usize, title: &str) -> Result<(), Stop> {
        self.close_row(line)?;
        if self.rows.iter().any(|row| row.title.as_str() == title) {
            return Err(failed_at(self.alloc, line, "an earlier row has this title", title));
        }
        self.row = Some(Row {
            line,
            title: String::from_str(self.alloc, title)?,
            disks: Vec::new(self.alloc),
            acts: Vec::new(self.alloc),
            is_kept: false,
        });
        Ok(())
    }

    fn read_disk(&mut self, line: usize, rest: &str) -> Result<(), Stop> {
        let plan = disk(self.alloc, &mut self.rows, line, rest)?;
        let name = plan.name.as_str();
        if self.disks().iter().any(|disk| disk.name.as_str() == name) {
            return Err(failed_at(self.alloc, line, "a disk of the row has this name", name));
        }
        let is_first = self.run.is_none() && self.trial.is_none();
        match &mut self.row {
            Some(row) if is_first && row.acts.is_empty() => {
                row.disks.push(plan)?;
                Ok(())
            }
            _ => Err(failed(self.alloc, line, "disks stand behind a row's title")),
        }
    }

    fn read_like(&mut self, line: usize, title: &str) -> Result<(), Stop> {
        let plans = disks_like(self.alloc, &mut self.rows, line, title)?;
        let is_first = self.run.is_none() && self.trial.is_none();
        match &mut self.row {
            Some(row) if is_first && row.disks.is_empty() => {
                row.disks = plans;
                Ok(())
            }
            _ => Err(failed(self.alloc, line, "like stands behind a row's title")),
        }
    }

    // A run of these words, behind those that name the row's disks where `named` is set.
    fn open_run(&mut self, line: usize, named: bool, rest: &str) -> Result<(), Stop> {
        let settings = self.open_settings(line)?;
        let mut words = Vec::new(self.alloc);
        if named {
            push_names(self.alloc, self.disks(), &mut words)?;
        }
        push_words(self.alloc, rest, &mut words)?;
        if self.version.is_none() {
            self.close_trial(line)?;
        }
        self.run = Some(Run {
            line,
            words,
            settings,
            expected: Expected::new(self.alloc),
        });
        Ok(())
    }

    fn open_list(&mut self, line: usize, rest: &str) -> Result<(), Stop> {
        self.close_list(line)?;
        if self.trial.is_none() {
            return Err(failed(self.alloc, line, "an enumeration stands behind a run"));
        }
        self.list = Some(open_list(self.alloc, line, rest)?);
        Ok(())
    }

    fn open_version(&mut self, line: usize, rest: &str) -> Result<(), Stop> {
        self.close_version(line)?;
        let version = open_version(self.alloc, line, rest)?;
        let is_bounded = version.from.is_some() || version.until.is_some();
        match &self.list {
            Some(list) if list.has_moments() || !is_bounded => {
                self.version = Some(version);
                Ok(())
            }
            Some(_) => Err(failed(self.alloc, line, "at a failure no version has bounds")),
            None => Err(failed(self.alloc, line, "a version stands in an enumeration")),
        }
    }

    // The open run is finished, and becomes a check of the open version, or a trial of the row.
    fn close_run(&mut self, line: usize) -> Result<(), Stop> {
        if self.settings.is_some() {
            return Err(failed(
                self.alloc,
                line,
                "behind what holds for a run stands the run",
            ));
        }
        let Some(run) = self.run.take() else {
            return Ok(());
        };
        match &mut self.version {
            Some(version) => version.checks.push(run)?,
            None => {
                self.trial = Some(Trial {
                    run,
                    lists: Vec::new(self.alloc),
                });
            }
        }
        Ok(())
    }

    // The open version is finished.
    fn close_version(&mut self, line: usize) -> Result<(), Stop> {
        self.close_run(line)?;
        let Some(version) = self.version.take() else {
            return Ok(());
        };
        if version.checks.is_empty() {
            return Err(failed(self.alloc, line, "a version has a run"));
        }
        match &mut self.list {
            Some(list) => list.add(version),
            None => Ok(()),
        }
    }

    // The open enumeration is finished, and belongs to the open trial.
    fn close_list(&mut self, line: usize) -> Result<(), Stop> {
        self.close_version(line)?;
        let Some(list) = self.list.take() else {
            return Ok(());
        };
        if list.is_empty() {
            return Err(failed(self.alloc, line, "an enumeration has a version"));
        }
        if let Some(trial) = &mut self.trial {
            trial.lists.push(list)?;
        }
        Ok(())
    }

    // The open trial is finished, and is done behind what the row has.
    fn close_trial(&mut self, line: usize) -> Result<(), Stop> {
        self.close_list(line)?;
        match self.trial.take() {
            Some(trial) => self.add_act(line, Act::Try(trial)),
            None => Ok(()),
        }
    }

    // The open row is finished.
    fn close_row(&mut self, line: usize) -> Result<(), Stop> {
        self.close_trial(line)?;
        if let Some(row) = self.row.take() {
            self.rows.push(row)?;
        }
        Ok(())
    }

    fn add_act(&mut self, line: usize, act: Act) -> Result<(), Stop> {
        match &mut self.row {
            Some(row) => {
                row.acts.push(act)?;
                Ok(())
            }
            None => Err(failed(self.alloc, line, "a row has to be begun first")),
        }
    }
}

// Adds a pair `-d NAME` for each disk.
fn push_names(alloc: Global, disks: &[DiskPlan], words: &mut Vec<String>) -> Result<(), Stop> {
    for disk in disks {
        words.push(String::from_str(alloc, "-d")?)?;
        words.push(disk.name.clone()?)?;
    }
    Ok(())
}

// Adds the words of the text, of which `""` is the empty one.
fn push_words(alloc: Global, text: &str, words: &mut Vec<String>) -> Result<(), Stop> {
    let all = words_in(alloc, text)?;
    for word in all.iter() {
        let word = if *word == "\"\"" { "" } else { *word };
        words.push(String::from_str(alloc, word)?)?;
    }
    Ok(())
}
