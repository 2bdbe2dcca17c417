//! The rule off the facets.

ghost use Rattle.std.specs.Prelude.{◌≡◌, ℕ, ◌<◌, All};
ghost use Rattle.std.specs.List.{list_all, list_any};
ghost use Rattle.iso_model.specs.declared.Kind.{Kind};
ghost use Rattle.iso_model.specs.Acceptance.{rule_inside};
ghost use Rattle.edge_sets.specs.Sets.{SuitsFacets};
ghost use Rattle.lists.specs.Bits.{is_set};

use crate::sets::has_member;

/// Whether no tuple has all its edges in one facet of the cell. The edges of each facet are given as a set.
pub fn keeps_off_facets<const D: usize>(facets: &[u32], tuples: &[[u8; D]]) -> bool
    requires { All (λ w. All (λ e. e < 32) w) tuples.now }
    ensures { (kind : Kind) → SuitsFacets kind D facets.now tuples.now → result ≡ rule_inside kind D tuples.now }
{
    for tuple in tuples {
        if lies_in_some(facets, tuple) {
            return false;
        }
    }
    true
}

/// Whether all edges of a tuple are members of one of the sets.
fn lies_in_some<const D: usize>(sets: &[u32], tuple: &[u8; D]) -> bool
    requires { All (λ e. e < 32) tuple.now }
    ensures { result ≡ list_any (λ set. list_all (is_set set) tuple.now) sets.now }
{
    for set in sets {
        if lies_in(*set, tuple) {
            return true;
        }
    }
    false
}

/// Whether all edges of a tuple are members of a set.
fn lies_in<const D: usize>(set: u32, tuple: &[u8; D]) -> bool
    requires { All (λ e. e < 32) tuple.now }
    ensures { result ≡ list_all (is_set set) tuple.now }
{
    for edge in tuple {
        if !has_member(set, *edge) {
            return false;
        }
    }
    true
}
