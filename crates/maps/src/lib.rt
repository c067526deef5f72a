#![tactic(auto)]
//! Laws of finite maps and of lists that several crates need. There is no code here.
//!
//! `specs/Maps.antt` has what is said of many values of a map at once. In `proofs`, `Maps` and `MapLaws` say what is found in a
//! map after a change, `Found` what a search by a test finds, `Count` and `Lengths` how many entries there are, and `Kept`
//! which numbers of a range pass a test.
//!
//! Floor: ground.
