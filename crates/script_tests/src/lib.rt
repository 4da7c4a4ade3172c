//! Tests of what the crates of words, scripts and answers offer.
//!
//! A crate with tests is proved twice, with them and without. So the tests of what several crates offer stand in one above them.
#![tactic(auto)]

#[cfg(test)]
mod answer_lines;
#[cfg(test)]
mod answers;
#[cfg(test)]
mod command_lines;
#[cfg(test)]
mod lines;
#[cfg(test)]
mod scripts;
#[cfg(test)]
mod sources;
#[cfg(test)]
mod streams;
#[cfg(test)]
mod synopses;
#[cfg(test)]
mod texts;
#[cfg(test)]
mod words;
