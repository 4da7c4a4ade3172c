//! Laws alone: what the standard library's lemmas lack on lists that are walked, filtered, numbered or put together, and on tests.
//!
//! `Walks` and `Fronts` have the steps of loops, `RowWalks` and `ItemWalks` those of loops over rows and their items; `Positions`
//! what stands at a place; `Members`, `KeptLists`, `Filtered`, `Inserted` and `Pairs` which elements a list has that
//! was made of another, and what holds of each or of each pair; `Bools` has tests as truth values. There is no code.
#![tactic(auto)]
