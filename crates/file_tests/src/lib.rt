//! Tests of the calls that read and write files: grids, tables and meshes. They stand in a crate of their own, so that they are
//! proved over what is proved already.
#![tactic(auto)]

#[cfg(test)]
mod grids;
#[cfg(test)]
mod mesh_files;
#[cfg(test)]
mod mesh_texts;
#[cfg(test)]
mod tables;
