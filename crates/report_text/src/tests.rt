//! Whole reports of a one-voter ring, blocks of nodes, and the words of values and sayings.
//!
//! Each test is a few calls of small functions that hand on what they make: the proof of a function
//! costs most where it lets go of several values or borrows them.
mod blocks;
mod fixtures;
mod reports;
mod words;
