//! Tests of convex hulls, of the simplices of their facets, and of entries of single labellings. They stand in a crate of
//! their own, so that they are proved over what is proved already.
#![tactic(auto)]

#[cfg(test)]
mod double_description;
#[cfg(test)]
mod entries;
#[cfg(test)]
mod half_spaces;
#[cfg(test)]
mod moves;
#[cfg(test)]
mod pulling;
#[cfg(test)]
mod turns;
