//! Work in parts: gates, which the pieces pass, and the items that each piece has.

ghost use Rattle.std.specs.Prelude.{◌≡◌, ◌≤◌};
ghost use Rattle.iso_base.specs.Parts.{start_of};

/// What each piece of a work in parts passes as it starts. A gate may note the pieces, or let one wait for another for a
/// while; no contract sees what it does.
pub trait Gate {
    /// Piece `piece` starts.
    fn pass(&self, piece: u32);
}

/// A gate that lets each piece pass at once.
#[derive(Clone, Copy, Debug, PartialEq, Eq, Drop)]
pub struct OpenGate;

impl Gate for OpenGate {
    fn pass(&self, _piece: u32) {}
}

/// Where the items of a piece start, of so many items in so many parts. They end where those of the next piece start.
#[tactic(auto, using(crate::proofs::PartLaws::start_within))]
pub fn part_start(items: u32, parts: u32, piece: u32) -> u32
    requires some { 1 ≤ parts }
    requires piece { piece ≤ parts }
    ensures start { result ≡ start_of items parts piece }
    ensures within { result ≤ items }
{
    (u64::from(piece) * u64::from(items) / u64::from(parts)) as u32
}
