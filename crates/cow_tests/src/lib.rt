//! Tests of the copy-on-write snapshot, over volumes in memory.
#![tactic(auto)]

#[cfg(test)]
mod stores;
