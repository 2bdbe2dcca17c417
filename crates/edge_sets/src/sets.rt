//! Sets of edges and of corners: bit k is set where number k is a member.

ghost use Rattle.std.specs.Prelude.{◌≡◌, ◌≢◌, ℕ, ◌<◌, ◌≤◌, ◌||◌, true, false, length, slice_index_or, All, IfSome, IfNone};
ghost use Rattle.edge_sets.specs.Sets.{IsSetOf, is_sound_in, differs, HasDiffering};
ghost use Rattle.lists.specs.Bits.{is_set};

/// Whether a number is a member.
pub fn has_member(set: u32, member: u8) -> bool
    requires { member < 32 }
    ensures { result ≡ is_set set member }
{
    (set >> member) & 1 == 1
}

/// The set with an edge.
fn with_edge(set: u32, edge: u8) -> u32
    requires { edge < 32 }
    ensures same { is_set result edge ≡ true }
    ensures others { (e : ℕ) → e ≢ edge → is_set result e ≡ is_set set e }
{
    set | (1 << edge)
}

/// The members of both sets.
pub(crate) fn joined(set: u32, other: u32) -> u32
    ensures { (e : ℕ) → is_set result e ≡ (is_set set e || is_set other e) }
{
    set | other
}

/// The edges of a tuple, where none stands twice and all are in a set.
pub(crate) fn sound_set<const D: usize>(within: u32, tuple: &[u8; D]) -> Option<u32>
    requires { All (λ e. e < 32) tuple.now }
    ensures unsound { IfNone result (is_sound_in within tuple.now ≡ false) }
    ensures sound { IfSome result (λ _. is_sound_in within tuple.now ≡ true) }
    ensures set { IfSome result (λ set. IsSetOf set tuple.now) }
{
    let mut set = 0;
    for edge in tuple {
        if has_member(set, *edge) {
            return None;
        }
        if !has_member(within, *edge) {
            return None;
        }
        set = with_edge(set, *edge);
    }
    Some(set)
}

/// The edges of which one end is positive in a labelling and the other is not. A label has bit k set where corner k is
/// positive; an edge is given by its two corners.
pub fn bipolar_set(label: u32, ends: &[(u8, u8)]) -> u32
    requires few { length ends.now ≤ 32 }
    requires corners { All (λ (p : ℕ × ℕ). (p.0 < 32) × (p.1 < 32)) ends.now }
    ensures members { HasDiffering ends.now label result }
    ensures others { (e : ℕ) → length ends.now ≤ e → is_set result e ≡ false }
{
    let mut set = 0;
    for edge in 0..ends.len() {
        let (first, second) = ends[edge];
        if has_member(label, first) != has_member(label, second) {
            set = with_edge(set, edge as u8);
        }
    }
    set
}
