//! The traces of a run of labels of a table.

ghost use Rattle.std.specs.Prelude.{◌≡◌, ◌≤◌, length, IfOk};
ghost use Rattle.seam_traces.specs.Kept.{AreFacetsOf, TellRun, JoinRuns};

use crate::facets::{Facet, add_label, add_later, facets_of};
use cell_lattice::Cell;
use face_tallies::{TallyRoom, tally};
use iso_base::Memory;
use std::alloc::Global;
use std::marker::Model;
use table_file::Table;

/// What [`Traces`](crate::Traces) are of all labels, of a run of labels. It can be handed from one thread to another.
#[derive(Drop)]
pub struct RunTraces {
    facets: Vec<Facet>,
}

impl Model for RunTraces {
    ghost use Rattle.std.specs.Prelude.{List};
    ghost use Rattle.seam_traces.specs.declared.facets.Facet.{Facet as FacetValue};

    ghost Value = { List FacetValue };

    ghost view = { λ r. r.facets.items };
}

impl RunTraces {
    /// The traces of the labels from `from` on and before `to` of a table of the cell's kind.
    pub fn gather<C: Cell<D>, const D: usize>(
        alloc: Global,
        table: &Table<D>,
        from: u32,
        to: u32,
    ) -> Result<RunTraces, Memory>
        requires kind { table.now.kind ≡ C.KIND }
        requires run { from ≤ to }
        requires labels { to ≤ length table.now.entries }
        ensures facets { IfOk result (λ run. AreFacetsOf C.KIND D run) }
        ensures tell { IfOk result (λ run. TellRun C.KIND D table.now from to run) }
    {
        let _kind = table.kind();
        let mut facets = facets_of::<C, D>(alloc)?;
        let mut room = TallyRoom::new(alloc);
        let mut tallies = Vec::new(alloc);
        for label in from..to {
            tally(table.tuples(label), &mut room, &mut tallies)?;
            add_label(alloc, &mut facets, label, &tallies)?;
        }
        Ok(RunTraces { facets })
    }

    /// The traces of two runs of labels of one table, where `later` are those of the run that begins where the other
    /// ends.
    pub fn followed_by<C: Cell<D>, const D: usize>(mut self, mut later: RunTraces) -> RunTraces
        requires facets { AreFacetsOf C.KIND D self }
        requires later_facets { AreFacetsOf C.KIND D later }
        ensures facets { AreFacetsOf C.KIND D result }
        ensures joined { JoinRuns C.KIND D self later result }
    {
        add_later(&mut self.facets, &mut later.facets);
        self
    }

    pub(crate) fn into_facets(self) -> Vec<Facet>
        ensures { result.items ≡ self }
    {
        self.facets
    }
}
