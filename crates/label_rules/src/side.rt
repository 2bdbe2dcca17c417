//! The rule of sides: simplices are turned towards the positive corners.

ghost use Rattle.std.specs.Prelude.{◌≡◌, ◌<◌, ◌≤◌, ℕ, true, map, pos, int_lt, All};
ghost use Rattle.std.specs.List.{list_all};
ghost use Rattle.polynomials.specs.Small.{AreSmall};
ghost use Rattle.iso_model.specs.Turns.{minus};
ghost use Rattle.iso_model.specs.Cells.{edge_count, edge_midpoint};
ghost use Rattle.iso_model.specs.Tables.{IsTuple};
ghost use Rattle.iso_model.specs.Acceptance.{side_turn, rule_edges, rule_side};
ghost use Rattle.label_rules.specs.Figures.{ascent as ascent_of};

use crate::Figures;
use edge_sets::has_member;
use small_turn::{dot, hyper};

impl<const D: usize> Figures<D> {
    /// Whether for each tuple and each of its edges the turn of the steps from the first midpoint to each other one
    /// and, last, of the step from the negative to the positive end of the edge is positive. It is asked of tuples
    /// that keep the rule of bipolar edges.
    pub fn keeps_side(&self, label: u32, tuples: &[[u8; D]]) -> bool
        requires { All (IsTuple self.now D) tuples.now }
        ensures { rule_edges self.now D label tuples.now ≡ true → result ≡ rule_side self.now D label tuples.now }
    {
        let _kind = self.kind();
        for tuple in tuples {
            if !self.is_turned(label, tuple) {
                return false;
            }
        }
        true
    }

    /// Whether the turn of a tuple is positive with the step along each of its edges.
    fn is_turned(&self, label: u32, tuple: &[u8; D]) -> bool
        requires { IsTuple self.now D tuple.now }
        ensures { result ≡ list_all (λ e. int_lt (pos 0) (side_turn self.now D label tuple.now e)) tuple.now }
    {
        let _kind = self.kind();
        let plane = hyper(&self.vertices(tuple));
        for edge in tuple {
            if dot(&plane.normal, &self.ascent(label, *edge)) <= 0 {
                return false;
            }
        }
        true
    }

    /// The midpoints of a tuple's edges.
    fn vertices(&self, tuple: &[u8; D]) -> [[i32; D]; D]
        requires { IsTuple self.now D tuple.now }
        ensures midpoints { result ≡ map (λ e. map pos (edge_midpoint self.now D e)) tuple.now }
        ensures small { All (λ p. AreSmall 32 p) result }
    {
        let _kind = self.kind();
        let mut midpoints = [[0; D]; D];
        for place in 0..D {
            midpoints[place] = *self.midpoint(tuple[place]);
        }
        midpoints
    }

    /// The step from the negative to the positive end of a bipolar edge.
    fn ascent(&self, label: u32, edge: u8) -> [i64; D]
        requires { edge < edge_count self.now D }
        ensures step { result ≡ ascent_of self.now D label edge }
        ensures small { AreSmall 64 result }
    {
        let _kind = self.kind();
        let (first, second) = self.ends(edge);
        if has_member(label, first) {
            step(self.corner(second), self.corner(first))
        } else {
            step(self.corner(first), self.corner(second))
        }
    }
}

/// The step from one corner to another.
fn step<const D: usize>(from: &[i64; D], to: &[i64; D]) -> [i64; D]
    requires few { D ≤ 4 }
    requires from_small { AreSmall 32 from.now }
    requires to_small { AreSmall 32 to.now }
    ensures step { result ≡ minus to.now from.now }
    ensures small { AreSmall 64 result }
{
    let mut step = [0; D];
    for axis in 0..D {
        step[axis] = to[axis] - from[axis];
    }
    step
}
