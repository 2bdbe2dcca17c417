//! Tests of tables that are made and checked, and of each rule. They stand in a crate of their own, so that they are
//! proved over what is proved already.
#![tactic(auto)]

#[cfg(test)]
mod checks;
#[cfg(test)]
mod making;
#[cfg(test)]
mod paths;
#[cfg(test)]
mod rules;
#[cfg(test)]
mod seams;
#[cfg(test)]
mod sets;
#[cfg(test)]
mod tallies;
