//! The surface that an accepted table gives in a grid: closed, each simplex in one cell, turned to its positive side, and in three
//! dimensions linked.
//!
//! The crate has no code. Of the files in `proofs`, `Surface` says that the placed mesh is closed, placed and sided, `Linked` that its
//! triangles are linked, `Isosurface` that it is an isosurface, `OuterEdges` where its boundary lies in a grid of which no cell is
//! left out, `OneArc` that all cells at an edge of such a grid stand on one arc, `LinkedByWalks` that its triangles are then linked by
//! one walk at each vertex, and `GridSurface` all this of a grid. `ExchangedTurns`, `SideRows`, `TowardsPositive` and `Sided` turn the
//! simplices to their positive sides; `RingWalks` and `SameEdges` carry what is tested round the edges of one cube to grids of any
//! sizes, and `KeptRings` proves what `link_laws` asks of the kept cells at a vertex.
#![tactic(auto)]
