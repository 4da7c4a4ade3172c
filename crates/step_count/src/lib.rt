//! Counted steps: contracts bound them, and no code counts.
//!
//! A step is one comparison with a kept key, which is the only way in which a search learns of the key.
#![tactic(auto)]

mod steps;

pub use steps::Steps;
