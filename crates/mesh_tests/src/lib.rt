//! Tests of the splits of grids, of their edges and of meshes. They stand in a crate of their own, so that they are
//! proved over what is proved already.
#![tactic(auto)]

#[cfg(test)]
mod edges;
#[cfg(test)]
mod meshes;
#[cfg(test)]
mod rings;
#[cfg(test)]
mod spectra;
#[cfg(test)]
mod splits;
