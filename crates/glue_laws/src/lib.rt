//! The gluing of cells, as laws over lists: cells with entries of tuples of edges, of which neighbours share facets.
//!
//! The crate has no code. Of the files in `proofs`, `Pieces` says what is asked of such cells, `GluedFaces` that their placed simplices
//! are closed (each face has count 2 and sum 0, or count 1 on a free facet), and `InOneCell` that each of these simplices belongs to
//! one cell and each cell has a simplex at each of its vertices. The others are steps: `OwnPart` says what a cell adds to the count of a
//! face, `OneFace` and `FreePieces` what all cells add.
#![tactic(auto)]
