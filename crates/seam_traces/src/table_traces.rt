//! The traces of all labels of a table.

ghost use Rattle.std.specs.Prelude.{◌≡◌, ◌<◌, slice_index_or, IfOk};
ghost use Rattle.iso_model.specs.Acceptance.{rule_seams};
ghost use Rattle.seam_traces.specs.Clashes.{TellsClash, TellsClashAt};
ghost use Rattle.seam_traces.specs.SeamLists.{seam_of, seams_of, IsSeamOf, AreSeamsOf};
ghost use Rattle.seam_traces.specs.Kept.{TellTable, InTables, IsSound, IsFacetOf, AreFacetsOf};

use crate::clashes::Clash;
use crate::facets::Facet;
use crate::run_traces::RunTraces;
use crate::seams::FacetSeam;
use cell_lattice::Cell;
use face_tallies::FaceTally;
use iso_base::Memory;
use std::alloc::Global;
use std::marker::{Model, PhantomData};
use table_file::Table;

/// For each facet of the cell and each pattern of signs on its corners the trace of the first label of a table with
/// this pattern, and whether all labels with it have this trace.
#[derive(Drop)]
pub struct Traces<C: Cell<D>, const D: usize> {
    facets: Vec<Facet>,
    cell: PhantomData<C>,
}

impl<C: Cell<D>, const D: usize> Model for Traces<C, D> {
    ghost use Rattle.std.specs.Prelude.{List};
    ghost use Rattle.seam_traces.specs.declared.facets.Facet.{Facet as FacetValue};
    ghost use Rattle.seam_traces.specs.Kept.{AreFacetsOf};

    ghost Value = { List FacetValue };

    ghost view = { λ t. t.facets.items };

    ghost invariant = { λ t. AreFacetsOf C.KIND D t.facets.items };
}

impl<C: Cell<D>, const D: usize> Traces<C, D> {
    /// The traces of all labels of a table of this kind.
    pub fn gather(alloc: Global, table: &Table<D>) -> Result<Traces<C, D>, Memory>
        requires { table.now.kind ≡ C.KIND }
        ensures { IfOk result (λ traces. TellTable C.KIND D table.now traces) }
    {
        let all = RunTraces::gather::<C, D>(alloc, table, 0, table.labels())?;
        Ok(Traces::of_run(all))
    }

    /// The traces of a run of labels, for the cell of which they are.
    pub fn of_run(run: RunTraces) -> Traces<C, D>
        requires { AreFacetsOf C.KIND D run }
        ensures { result ≡ run }
    {
        Traces {
            facets: run.into_facets(),
            cell: PhantomData,
        }
    }

    /// Whether a label keeps the rule over these seams in the table of which these are the traces. `tallies` are those of
    /// the label's tuples.
    pub fn keeps_seams(&self, seams: &[FacetSeam], label: u32, tallies: &[FaceTally]) -> bool
        requires { AreSeamsOf C.KIND D (seams_of seams.now) }
        ensures { InTables C.KIND D self.now label tallies.now (λ t. result ≡ rule_seams (seams_of seams.now) t label) }
    {
        self.first_clash(seams, label, tallies).is_none()
    }

    /// The first clash of a label over these seams in the table of which these are the traces, and none where it keeps the
    /// rule over them. `tallies` are those of the label's tuples.
    pub fn first_clash(
        &self,
        seams: &[FacetSeam],
        label: u32,
        tallies: &[FaceTally],
    ) -> Option<Clash>
        requires { AreSeamsOf C.KIND D (seams_of seams.now) }
        ensures { InTables C.KIND D self.now label tallies.now (λ t. TellsClash (seams_of seams.now) t label result) }
    {
        for seam in seams {
            if let Some(clash) = self.clash_at(*seam, label, tallies) {
                return Some(clash);
            }
        }
        None
    }

    /// The clash of a label at one seam, read in the first direction in which it has one.
    fn clash_at(&self, seam: FacetSeam, label: u32, tallies: &[FaceTally]) -> Option<Clash>
        requires { IsSeamOf C.KIND D (seam_of seam) }
        ensures { InTables C.KIND D self.now label tallies.now (λ t. TellsClashAt t label (seam_of seam) result) }
    {
        let facet = self.facet(seam.facet);
        let other = self.facet(seam.other);
        if let Some(against) = other.least_against(facet, seam.same, label, tallies) {
            return Some(Clash {
                facet: seam.facet,
                other: against,
                other_facet: seam.other,
            });
        }
        match facet.least_against(other, seam.same, label, tallies) {
            Some(against) => Some(Clash {
                facet: seam.other,
                other: against,
                other_facet: seam.facet,
            }),
            None => None,
        }
    }

    /// A facet of the cell.
    fn facet(&self, number: u8) -> &Facet
        requires { number < C.FACETS }
        ensures read { result.now ≡ slice_index_or self.now number result.now }
        ensures sound { IsSound result.now }
        ensures facet { IsFacetOf C.KIND D number result.now }
    {
        &self.facets[number as usize]
    }
}
