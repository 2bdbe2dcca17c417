//! The laws of the three splits in grids of any sizes, from the tests of the cells of one cube.
#![tactic(auto)]
