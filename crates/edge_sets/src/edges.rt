//! The rule of bipolar edges.

ghost use Rattle.std.specs.Prelude.{◌≡◌, ℕ, ◌<◌, All};
ghost use Rattle.iso_model.specs.declared.Kind.{Kind};
ghost use Rattle.iso_model.specs.Acceptance.{rule_edges};
ghost use Rattle.edge_sets.specs.Sets.{Suits, AnswersEdges};

use crate::sets::{joined, sound_set};

/// Whether each tuple has `D` distinct edges that are all bipolar, and each bipolar edge stands in some tuple. The
/// bipolar edges are given as a set.
pub fn keeps_edges<const D: usize>(bipolar: u32, tuples: &[[u8; D]]) -> bool
    requires { All (λ w. All (λ e. e < 32) w) tuples.now }
    ensures { AnswersEdges D bipolar tuples.now result }
{
    let mut covered = 0;
    for tuple in tuples {
        match sound_set(bipolar, tuple) {
            Some(edges) => covered = joined(covered, edges),
            None => return false,
        }
    }
    covered == bipolar
}
