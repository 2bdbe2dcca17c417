//! Tables of single cells.

use cell_lattice::{Cell, CubeCell, SimplexCell};
use iso_base::{Gate, Memory, OpenGate};
use std::alloc::Global;
use std::sync::atomic::{AtomicBool, Ordering};
use table_file::encode;
use table_make::{make, make_parts};
use worked_tables::{SQUARE, TETRAHEDRON, TRIANGLE};

/// The bytes of the table of a cell.
fn bytes_of<C: Cell<D>, const D: usize>(alloc: Global) -> Result<Vec<u8>, Memory> {
    let table = make::<C, D>(alloc)?;
    encode(alloc, &table)
}

#[test]
fn tables_of_the_square_and_of_simplices(rt: HostRuntime) {
    let square = bytes_of::<CubeCell<2>, 2>(rt.alloc()).expect(&rt, "memory");
    assert_eq!(rt; square.as_slice(), SQUARE.as_slice());
    let triangle = bytes_of::<SimplexCell<2>, 2>(rt.alloc()).expect(&rt, "memory");
    assert_eq!(rt; triangle.as_slice(), TRIANGLE.as_slice());
    let tetrahedron = bytes_of::<SimplexCell<3>, 3>(rt.alloc()).expect(&rt, "memory");
    assert_eq!(rt; tetrahedron.as_slice(), TETRAHEDRON.as_slice());
}

#[test]
fn parts_make_the_same_table(rt: HostRuntime) {
    for parts in [1, 2, 3, 7, 16, 64] {
        let square = make_parts::<HostRuntime, CubeCell<2>, 2, OpenGate>(
            &rt,
            rt.alloc(),
            parts,
            &OpenGate,
        );
        let square = encode(rt.alloc(), &square.expect(&rt, "memory")).expect(&rt, "memory");
        assert_eq!(rt; square.as_slice(), SQUARE.as_slice());
        let triangle = make_parts::<HostRuntime, SimplexCell<2>, 2, OpenGate>(
            &rt,
            rt.alloc(),
            parts,
            &OpenGate,
        );
        let triangle = encode(rt.alloc(), &triangle.expect(&rt, "memory")).expect(&rt, "memory");
        assert_eq!(rt; triangle.as_slice(), TRIANGLE.as_slice());
    }
}

/// A gate at which piece 0 waits for a while until piece 1 has passed.
#[derive(Drop)]
struct Meeting {
    passed: AtomicBool,
    met: AtomicBool,
}

impl Gate for Meeting {
    fn pass(&self, piece: u32) {
        if piece == 1 {
            self.passed.store(true, Ordering::SeqCst);
        }
        if piece == 0 {
            for _ in 0..100_000_000u64 {
                if self.passed.load(Ordering::SeqCst) {
                    self.met.store(true, Ordering::SeqCst);
                    return;
                }
            }
        }
    }
}

#[test]
fn two_pieces_run_at_once(rt: HostRuntime) {
    let gate = Meeting {
        passed: AtomicBool::new(false),
        met: AtomicBool::new(false),
    };
    let square = make_parts::<HostRuntime, CubeCell<2>, 2, Meeting>(&rt, rt.alloc(), 2, &gate);
    let square = encode(rt.alloc(), &square.expect(&rt, "memory")).expect(&rt, "memory");
    assert_eq!(rt; square.as_slice(), SQUARE.as_slice());
    assert!(rt; gate.met.load(Ordering::SeqCst));
}
