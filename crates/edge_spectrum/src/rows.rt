//! Rows of edges that join samples, and which of them a split has.

ghost use Rattle.std.specs.Prelude.{◌≡◌, ◌+◌, ◌≤◌, length, if◌then◌else◌};
ghost use Rattle.edge_spectrum.specs.Growing.{AreDifferences, Grows, one_if};
ghost use Rattle.edge_spectrum.specs.Counted.{AreSmall, apart, axes_of, goes_along};

use crate::cubes::sample;
use crate::differences::Differences;
use iso_model::Kind;

impl Differences {
    /// Adds the edges of a row in one direction, where the split has it.
    pub(crate) fn add_if(
        &mut self,
        goes: bool,
        samples: &[i64],
        near: usize,
        far: usize,
        count: usize,
    )
        requires sound { AreDifferences self.old }
        requires small { AreSmall samples.now }
        requires near { near + count ≤ length samples.now }
        requires far { far + count ≤ length samples.now }
        ensures { Grows self.old self.new (λ iso. if goes then apart samples.now near far count iso else 0) }
    {
        if goes {
            self.add_row(samples, near, far, count);
        }
    }

    /// Adds edges from so many samples from one place on to those from another place on.
    fn add_row(&mut self, samples: &[i64], near: usize, far: usize, count: usize)
        requires sound { AreDifferences self.old }
        requires small { AreSmall samples.now }
        requires near { near + count ≤ length samples.now }
        requires far { far + count ≤ length samples.now }
        ensures { Grows self.old self.new (apart samples.now near far count) }
    {
        for x in 0..count {
            self.add(sample(samples, near + x), sample(samples, far + x));
        }
    }
}

/// Along how many axes but axis 0 the edges of a row go.
pub(crate) fn axes_of(along: [bool; 2], upright: bool) -> u32
    ensures axes { result ≡ axes_of along upright }
    ensures few { result ≤ 3 }
{
    one_if(along[0]) + one_if(along[1]) + one_if(upright)
}

/// One for an axis along which an edge goes.
fn one_if(along: bool) -> u32
    ensures one { result ≡ one_if along }
    ensures few { result ≤ 1 }
{
    if along { 1 } else { 0 }
}

/// Whether a split has edges that join samples and go along so many axes.
pub(crate) fn goes_along(kind: Kind, axes: u32) -> bool
    ensures { result ≡ goes_along kind axes }
{
    match kind {
        Kind::Simplex => axes > 0,
        Kind::Cube | Kind::Pyramid => axes == 1,
    }
}
