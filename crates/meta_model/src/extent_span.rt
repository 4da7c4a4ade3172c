//! Room for a later sort.

/// Extents that lie side by side on one volume. A table of logical volumes keeps room for them.
#[derive(Clone, Copy, Debug, PartialEq, Eq)]
pub struct ExtentSpan {
    /// The number of what they lie on.
    pub on: u64,
    /// The first of them.
    pub first: u64,
    /// How many they are.
    pub count: u64,
}
