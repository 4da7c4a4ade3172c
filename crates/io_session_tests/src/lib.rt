//! Tests of runs: alone, by two workers who meet, by eight, with a move, and where memory is wanting. What runs the lines is
//! a small world over a row of disks in memory.
#![tactic(auto)]

#[cfg(test)]
mod gates;
#[cfg(test)]
mod runs;
#[cfg(test)]
mod small_world;
