//! Tests of the program's runs. They stand in a crate of their own, so that they are proved over what is proved
//! already.
#![tactic(auto)]

#[cfg(test)]
mod runs;
