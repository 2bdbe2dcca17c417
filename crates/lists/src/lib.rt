//! Lists, tests and bits: for definitions and proofs alone.
//! The crate has no code. Other crates list it in `crates.txt` and cite its files.
//!
//! In `specs`: `Orders` has orders and choices of members, sorting and parity; `Bits` sets of small numbers as numbers;
//! `Members` what it means that a list has a member, has no member twice, ascends, or stands in a strict order.
//!
//! In `proofs`: `Tests` compares tests and numbers; `Contained` and `MemberLaws` say what filtered, mapped and joined
//! lists contain, by places and by recursion; `Counts` has counts and sums to which one or two members add; `Sorting` what
//! sorting keeps, and its parity; `DistinctLists`, `Ascending` and `Orderings` are about lists in order, which their
//! members fix (`fixed_by`); `Bits` and `Powers` are about numbers by their bits. What std states is not stated again.
#![tactic(auto)]
