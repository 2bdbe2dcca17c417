//! The words of the program: which lists of words are right, what they ask for, and the first wrong word.
//!
//! The crate has no code. Its definitions stand in `specs/`, and each has a comment that says in words what it says in symbols; in `proofs/` are their worked
//! cases, each computed by the checker. They stand apart from those of files (`iso_formats`), so that a new command proves anew only what reads words.
#![tactic(auto)]
