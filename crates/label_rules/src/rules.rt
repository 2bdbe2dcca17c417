//! The rules of bipolar edges and off the facets, for a label and its tuples.

ghost use Rattle.std.specs.Prelude.{◌≡◌, All};
ghost use Rattle.iso_model.specs.Tables.{IsTuple};
ghost use Rattle.iso_model.specs.Acceptance.{rule_edges, rule_inside};

use crate::Figures;

impl<const D: usize> Figures<D> {
    /// Whether each tuple has `D` distinct edges that are all bipolar in the labelling, and each bipolar edge stands
    /// in some tuple.
    pub fn keeps_edges(&self, label: u32, tuples: &[[u8; D]]) -> bool
        requires { All (IsTuple self.now D) tuples.now }
        ensures { result ≡ rule_edges self.now D label tuples.now }
    {
        let _kind = self.kind();
        edge_sets::keeps_edges(self.bipolar(label), tuples)
    }

    /// Whether no tuple has all its edges in one facet of the cell.
    pub fn keeps_off_facets(&self, tuples: &[[u8; D]]) -> bool
        requires { All (IsTuple self.now D) tuples.now }
        ensures { result ≡ rule_inside self.now D tuples.now }
    {
        let _kind = self.kind();
        edge_sets::keeps_off_facets(self.facets(), tuples)
    }
}
