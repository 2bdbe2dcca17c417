//! Moves of a cube of two, three or four axes: orders of its axes with flips, and what they do to corners, edges and
//! labels. There are 8 moves of the square, 48 of the cube and 384 of the hypercube.
//!
//! A label has bit k set where corner k is positive. The labels that moves carry to each other form a class, which is
//! named by the least of them: there are 6, 22 and 402 classes.
#![tactic(auto)]

mod least;
mod moves;
mod tables;
mod words;

pub use least::least_label;
pub use moves::{Move, move_corner, move_edge, move_label};
