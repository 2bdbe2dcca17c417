//! Faces of some triangles, segments and tetrahedra.

use face_tallies::{FaceTally, TallyRoom, keeps_faces, tally};
use std::test::Fail;

/// Six triangles round edge 6, and one with a repeated edge.
const TRIANGLES: [[u8; 3]; 7] = [
    [0, 6, 2],
    [0, 4, 6],
    [1, 2, 6],
    [1, 6, 5],
    [3, 6, 4],
    [3, 5, 6],
    [0, 2, 2],
];

/// The rim of the triangles, face by face.
const RIM: [u32; 6] = [0b101, 0b110, 0b1_0001, 0b1_1000, 0b10_0010, 0b10_1000];

fn face(edges: u32, count: u64, sum: i64) -> FaceTally {
    FaceTally { edges, count, sum }
}

#[test]
fn tallies_of_triangles_and_segments(rt: HostRuntime) -> Result<(), Fail> {
    let mut room = TallyRoom::new(rt.alloc());
    let mut tallies = Vec::new(rt.alloc());
    tally(&TRIANGLES, &mut room, &mut tallies)?;
    let triangles = [
        face(0b101, 1, -1),
        face(0b110, 1, 1),
        face(0b1_0001, 1, 1),
        face(0b1_1000, 1, -1),
        face(0b10_0010, 1, -1),
        face(0b10_1000, 1, 1),
        face(0b100_0001, 2, 0),
        face(0b100_0010, 2, 0),
        face(0b100_0100, 2, 0),
        face(0b100_1000, 2, 0),
        face(0b101_0000, 2, 0),
        face(0b110_0000, 2, 0),
    ];
    assert_eq!(rt; tallies.as_slice(), triangles.as_slice());
    tally(&[[4, 7], [7, 9], [2, 7]], &mut room, &mut tallies)?;
    let segments = [
        face(0b100, 1, -1),
        face(0b1_0000, 1, -1),
        face(0b1000_0000, 3, 1),
        face(0b10_0000_0000, 1, 1),
    ];
    assert_eq!(rt; tallies.as_slice(), segments.as_slice());
    Ok(())
}

#[test]
fn tallies_of_tetrahedra(rt: HostRuntime) -> Result<(), Fail> {
    let mut room = TallyRoom::new(rt.alloc());
    let mut tallies = Vec::new(rt.alloc());
    let tetrahedra = [[0, 1, 2, 3], [2, 1, 0, 3], [1, 2, 0, 3], [28, 29, 30, 31]];
    tally(&tetrahedra, &mut room, &mut tallies)?;
    let faces = [
        face(0b111, 3, -1),
        face(0b1011, 3, 1),
        face(0b1101, 3, -1),
        face(0b1110, 3, 1),
        face(0x7000_0000, 1, -1),
        face(0xb000_0000, 1, 1),
        face(0xd000_0000, 1, -1),
        face(0xe000_0000, 1, 1),
    ];
    assert_eq!(rt; tallies.as_slice(), faces.as_slice());
    Ok(())
}

#[test]
fn rule_of_faces(rt: HostRuntime) -> Result<(), Fail> {
    let mut room = TallyRoom::new(rt.alloc());
    let mut tallies = Vec::new(rt.alloc());
    tally(&TRIANGLES, &mut room, &mut tallies)?;
    assert!(rt; keeps_faces(&RIM, &tallies));
    assert!(rt;
        !keeps_faces(&RIM[1..], &tallies),
        "a face in no facet has count 1"
    );
    assert!(rt;
        !keeps_faces(
            &[0b111, 0b1_0001, 0b1_1000, 0b10_0010, 0b10_1000, 0b101],
            &tallies
        ),
        "a face lies in two facets"
    );
    tally(&[[0, 2, 6], [0, 4, 6]], &mut room, &mut tallies)?;
    assert!(rt;
        !keeps_faces(&[0b101, 0b100_0100, 0b1_0001, 0b101_0000], &tallies),
        "two triangles are not turned alike"
    );
    Ok(())
}
