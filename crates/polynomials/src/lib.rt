//! Equations between polynomials over the whole numbers, and bounds of sums and products: for proofs alone.
//! The crate has no code. Other crates list it in `crates.txt` and cite its files in their proofs.
//!
//! `Rattle.polynomials.proofs.Ring`
//!
//! - `ring values a b refl : value values a ≡ value values b` proves that two polynomials have one value. Each is
//!   an `Expr` over numbered variables: `var 0`, `con z`, `a ⊕ b`, `a ⊖ b`, `a ⊗ b`, `neg a`. `values` lists what
//!   the variables stand for, and `refl` compares the two normal forms, which are sums of terms in order.
//! - `ring_above values a b multiples refl zeros : value values a ≡ value values b` proves it where `a` is `b` plus a
//!   sum of multiples of things that are 0. `multiples` lists pairs of a factor and a thing, and `zeros` proves of
//!   each thing in turn that it is 0. So hypotheses are used, with factors that the caller has to find.
//!
//! ```text
//! square : (a b : ℤ) → (a +ℤ b) *ℤ (a -ℤ b) ≡ a *ℤ a -ℤ b *ℤ b
//! square a b = ring (a ∷ b ∷ []) ((var 0 ⊕ var 1) ⊗ (var 0 ⊖ var 1)) (var 0 ⊗ var 0 ⊖ var 1 ⊗ var 1) refl
//! ```
//!
//! `Rattle.polynomials.proofs.IntLaws`: the laws of a commutative ring, no zero divisors (`mul-eq-zero`) and
//! cancellation (`mul-cancel`), each for arguments that are named.
//!
//! `Rattle.polynomials.specs.Small`: `IsSmall n x` says that x lies from -n to n, and `AreSmall n xs` that each
//! number of a list does. `Rattle.polynomials.proofs.SmallLaws` has their laws: sums, differences and products
//! (`small-add`, `small-sub`, `small-mul`), that a small number fits its machine type (`small-fits`,
//! `small-fits_narrow`), that it is read back from it unchanged (`small-back`), and the steps of a loop that writes an
//! array of numbers (`copied_more`, `written_more`).
//!
//! How determinants are written as `Expr`, what takes how long and what the solver does not do stands in
//! `docs/POLYNOMIALS.md`.
#![tactic(auto)]
