//! The crates as a library: makes the table of cubes, has it checked, and prints the mesh of a small grid.
#![tactic(auto)]

use cell_lattice::CubeCell;
use iso_base::{MemSink, Memory};
use mesh_extract::extract;
use nrrd_raw::Grid;
use off_write::write_mesh;
use std::alloc::Global;
use table_check::{CertifyFault, Checked, certify};
use table_make::make;

#[derive(Debug, Drop)]
enum Fault {
    Memory,
    Refused { label: u32, rule: u8 },
    Grid,
    Output,
}

impl From<Memory> for Fault {
    fn from(_: Memory) -> Fault {
        Fault::Memory
    }
}

/// The table of cubes of three dimensions, where the check accepts it.
fn cubes(alloc: Global) -> Result<Checked<CubeCell<3>, 3>, Fault> {
    let table = make::<CubeCell<3>, 3>(alloc)?;
    match certify(alloc, table) {
        Ok(checked) => Ok(checked),
        Err(CertifyFault::Refused { label, rule, .. }) => Err(Fault::Refused { label, rule }),
        Err(CertifyFault::Memory { .. }) => Err(Fault::Memory),
    }
}

/// The text of the mesh of 3 x 2 x 2 samples at the isovalue 5: the first sample is above it, the others are below.
fn text(alloc: Global) -> Result<MemSink, Fault> {
    let mut samples = vec![in alloc; 0; 12].map_err(|_| Fault::Memory)?;
    samples[0] = 10;
    let grid = Grid::new(&[3, 2, 2], samples).map_err(|_| Fault::Grid)?;
    let mesh = extract(alloc, &cubes(alloc)?, &grid, 5)?;
    let mut sink = MemSink::new(alloc, 4096, Vec::new(alloc), 4096)?;
    match write_mesh(&mesh, &mut sink) {
        Ok(()) => Ok(sink),
        Err(_) => Err(Fault::Output),
    }
}

fn main(rt: HostRuntime) -> Result<(), Fault> {
    let sink = text(rt.alloc())?;
    rt.write_all(sink.bytes()).map_err(|_| Fault::Output)
}
