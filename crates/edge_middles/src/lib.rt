//! The edges of a grid by their midpoints: which of them there are.
//!
//! In `specs`: `Middles` says which midpoints the edges of a split can have; `MovedEdges` moves points and edges by
//! whole cubes; `HeldMiddles` says which midpoints the cells of a cube of a grid have; `GridMiddles` says at which
//! midpoints a bipolar edge is there, and how many come before another; `WhatIsThere` says this by the samples and the
//! cubes around; `RowCounts` says how the number grows along a row of midpoints and from a row to the next;
//! `RowLists` lists those that are there height by height and row by row; `MiddleVertices` says where the edge at a
//! midpoint is crossed, and `MeshMiddles` what a mesh is made of; `PlainCubes` leaves out the cubes whose corners have
//! one sign; `MiddleTests` has tests of one cube that compute.
//!
//! In `proofs`: `MiddlesFound` computes them for each split; `CubeMiddles` says by it that the cells of one cube
//! have an edge at each point of the cube that can be a midpoint, and at no other; `MovedMiddles` moves midpoints and
//! edges by whole cubes, and `GridEdges` and `GridMidpoints` say that the edges of a grid are such; `HeldPoints` says
//! that the midpoints of a cube of a grid are the points that it holds and that can be midpoints. `OrderedPoints` puts
//! the points of a grid in order, `PointsThere` goes from a midpoint that is there to an edge of a kept cell and back,
//! `ListedEdges` lists the bipolar edges by midpoints, and `PlacesOfEdges` finds their places in the list; `KeptAround`
//! and `WhatIsThere` go to the kept cubes and the samples; `RowCounts` and `NextRows` count the edges along a row and
//! from a row to the next, and `FewMiddles` all of them; `RowLists` and `Heights` list them in these rows;
//! `MiddleVertices` goes to vertices, `MeshMiddles` to meshes, and `PlainCubes` to cubes that add nothing.
#![tactic(auto)]

ghost use Rattle.std.specs.Prelude.{ℕ, List, length};
ghost use Rattle.iso_model.specs.declared.Kind.{Kind};
ghost use Rattle.iso_model.specs.Cells.{HasDimension};
ghost use Rattle.iso_model.specs.Dimensions.{IsDimension};
ghost use Rattle.iso_model.specs.Tables.{Table};
ghost use Rattle.iso_model.specs.Values.{Volume};
ghost use Rattle.edge_middles.specs.GridMiddles.{AreByMiddles, HasPlace};
ghost use Rattle.edge_middles.specs.HeldMiddles.{AreMovedMiddles, HasHeldMiddles};
ghost use Rattle.edge_middles.specs.RowCounts.{CountsCentre, CountsCentres, CountsFew, CountsFirst, CountsNext};
ghost use Rattle.edge_middles.specs.RowCounts.{CountsNone, CountsPoints, CountsRows, CountsSame, CountsSamples};
ghost use Rattle.edge_middles.specs.MeshMiddles.{AreBetweenHeights, CountsCellEdges, GoCubeByCube};
ghost use Rattle.edge_middles.specs.MeshMiddles.{HasCountedSimplices, HasSimplicesByCubes, HasVerticesByMiddles};
ghost use Rattle.edge_middles.specs.PlainCubes.{HasEmptyEntries, HasNoBipolarEdge};
ghost use Rattle.edge_middles.specs.RowLists.{GoByCentres, GoRowByRow, HasAllBetween, HasNoneAtOdd, JoinsHeights};
ghost use Rattle.edge_middles.specs.WhatIsThere.{IsHeldByKept, IsThereAtCentre, IsThereInRow, StandsWhereKept};
ghost use Rattle.edge_middles.specs.MiddleVertices.{HasVertexAlong, HasVertexToCentre};
ghost use Rattle.edge_middles.specs.Middles.{HasAllMiddles, HasEdgesAtMiddles};
ghost use Rattle.edge_middles.specs.MovedEdges.{AreMovedEdges, HasGridEdgesAtMiddles, MovesEdges};

/// The cells of a cube have an edge at each point of the cube that can be the midpoint of one, and at no other, in each
/// split. Each edge is the one that its midpoint says, and where a midpoint is moved by whole cubes, so is its edge;
/// the edges of a grid's cells are those of one cube, moved, and so each is the one that its midpoint says. The cells
/// of a cube of a grid have an edge at each point that the cube holds and that can be a midpoint, and at no other.
pub fn middles_law()
    ensures middles { (kind : Kind) (d : ℕ) → IsDimension d → HasDimension kind d → HasAllMiddles kind d }
    ensures edges { (kind : Kind) (d : ℕ) → IsDimension d → HasDimension kind d → HasEdgesAtMiddles kind d }
    ensures moved { (x middle : List ℕ) → MovesEdges x middle }
    ensures grids { (kind : Kind) (sizes : List ℕ) → HasDimension kind (length sizes) → AreMovedEdges kind sizes }
    ensures own { (kind : Kind) (sizes : List ℕ) → HasDimension kind (length sizes) → HasGridEdgesAtMiddles kind sizes }
    ensures placed { (kind : Kind) (sizes : List ℕ) → HasDimension kind (length sizes) → AreMovedMiddles kind sizes }
    ensures held { (kind : Kind) (sizes : List ℕ) → HasDimension kind (length sizes) → HasHeldMiddles kind sizes }
{}

/// The bipolar edges of the kept cells of a grid are listed by midpoints: they are the edges at the midpoints that are
/// there, in ascending order, last coordinate first. So the place of an edge in this list is the number of midpoints
/// before its own.
pub fn places_law()
    ensures listed { (v : Volume) → HasDimension v.kind (length v.sizes) → AreByMiddles v }
    ensures places { (v : Volume) → HasDimension v.kind (length v.sizes) → (middle : List ℕ) → HasPlace v middle }
{}

/// An edge is there at a midpoint where the split has its direction, the samples or the centre at its ends have
/// different signs, and one of the cubes around it is kept.
pub fn there_law()
    ensures kept { (v : Volume) (x : List ℕ) → StandsWhereKept v x }
    ensures held { (v : Volume) (middle : List ℕ) → IsHeldByKept v middle }
    ensures row { (v : Volume) (rest : List ℕ) (x : ℕ) → HasDimension v.kind (length v.sizes) → IsThereInRow v rest x }
    ensures centre { (v : Volume) (rest : List ℕ) (x : ℕ) → IsThereAtCentre v rest x }
{}

/// Along a row of midpoints the number of edges before a point grows by those that are there; no edge stands between
/// the end of a row and the row after it, and none before the first point. In a grid of at most 2^27 samples it is at
/// most 2^31.
pub fn counts_law()
    ensures points { (v : Volume) (rest : List ℕ) → CountsPoints v rest }
    ensures samples { (v : Volume) (rest : List ℕ) → HasDimension v.kind (length v.sizes) → CountsSamples v rest }
    ensures first { (v : Volume) (rest : List ℕ) → HasDimension v.kind (length v.sizes) → CountsFirst v rest }
    ensures next { (v : Volume) (rest : List ℕ) → HasDimension v.kind (length v.sizes) → CountsNext v rest }
    ensures centres { (v : Volume) (rest : List ℕ) → HasDimension v.kind (length v.sizes) → CountsCentres v rest }
    ensures first_centre { (v : Volume) (rest : List ℕ) → HasDimension v.kind (length v.sizes) → CountsCentre v rest }
    ensures rows { (v : Volume) (rest : List ℕ) → HasDimension v.kind (length v.sizes) → CountsRows v rest }
    ensures same { (v : Volume) (p q : List ℕ) → CountsSame v p q }
    ensures none { (v : Volume) (n : ℕ) → CountsNone v n }
    ensures few { (v : Volume) (middle : List ℕ) → HasDimension v.kind (length v.sizes) → CountsFew v middle }
{}

/// What a mesh is made of, by midpoints: the edges between two heights, the vertices, each by the samples at the ends
/// of its edge, in millionths of a step from sample to sample, and the simplices, whose edges have the numbers of
/// midpoints before their own; the kept cells go cube by cube, and cubes whose cells have empty entries may be passed
/// over.
pub fn mesh_law()
    ensures heights { (v : Volume) → HasDimension v.kind (length v.sizes) → AreBetweenHeights v }
    ensures vertices { (v : Volume) (t : Table) → HasDimension v.kind (length v.sizes) → HasVerticesByMiddles v t }
    ensures along { (v : Volume) (middle : List ℕ) → HasVertexAlong v middle }
    ensures to_centre { (v : Volume) (middle : List ℕ) (last : ℕ) → HasVertexToCentre v middle last }
    ensures edges { (v : Volume) → HasDimension v.kind (length v.sizes) → CountsCellEdges v }
    ensures cell { (v : Volume) (t : Table) → HasDimension v.kind (length v.sizes) → HasCountedSimplices v t }
    ensures cubes { (v : Volume) → GoCubeByCube v }
    ensures simplices { (v : Volume) (t : Table) → HasDimension v.kind (length v.sizes) → HasSimplicesByCubes v t }
{}

/// The midpoints that are there go height by height, and at a height row by row, as a scan meets them.
pub fn rows_law()
    ensures rows { (v : Volume) (height : ℕ) → HasDimension v.kind (length v.sizes) → GoRowByRow v height }
    ensures centres { (v : Volume) (height : ℕ) → HasDimension v.kind (length v.sizes) → GoByCentres v height }
    ensures none { (v : Volume) (height : ℕ) → HasDimension v.kind (length v.sizes) → HasNoneAtOdd v height }
    ensures joined { (v : Volume) → HasDimension v.kind (length v.sizes) → JoinsHeights v }
    ensures all { (v : Volume) → HasDimension v.kind (length v.sizes) → HasAllBetween v }
{}

/// The cells of a cube whose corners all have one sign have no bipolar edge, and so they have no simplices: their
/// entries are empty.
pub fn plain_law()
    ensures edges { (v : Volume) → HasDimension v.kind (length v.sizes) → HasNoBipolarEdge v }
    ensures entries { (v : Volume) (t : Table) → HasDimension v.kind (length v.sizes) → HasEmptyEntries v t }
{}
