//! A hash under which edges that are near each other in a grid stand near each other in a table, so that work which
//! goes along the rows of a grid finds the next edges in memory that it has just used.

ghost use Rattle.std.specs.Prelude.{◌≡◌, ℕ, ◌+◌, ◌*◌, ◌%◌, ◌^◌, ◌≤◌, length, slice_index};
ghost use Rattle.edge_vertex.specs.NearbyHash as nearby;

use std::hash::Hasher;

/// How much a coordinate of the low end weighs, axis by axis, and then of the high end. The two of one axis add up to
/// the step from one point to the next: 1 along axis 0, and far apart along the others.
const WEIGHTS: [u64; 8] = [
    0xf120_908d_3945_733a,
    0xc1a1_958b_96fb_3bae,
    0x14c1_3188_4cdb_095e,
    0xe159_7789_d335_636e,
    0x0edf_6f72_c6ba_8cc7,
    0x1dcf_3806_0e77_8bdd,
    0x07fd_387b_6cd9_1563,
    0x2210_7cb9_4e85_bf41,
];

/// Spreads what edges of one group of the table differ in.
const SPREAD: u64 = 0x9e37_79b9_7f4a_7c15;

/// The weighted sum of the coordinates that are written, four bytes each. Each length that is written, in eight bytes,
/// starts a new point.
#[derive(Clone, Copy)]
pub struct NearbyHasher {
    place: u64,
    sum: u64,
}

impl Default for NearbyHasher {
    ghost is_default = { λ s. s ≡ nearby.initial };

    fn default() -> NearbyHasher {
        NearbyHasher { place: 4, sum: 0 }
    }
}

impl Hasher for NearbyHasher {
    ghost write = { nearby.write };

    ghost finish = { nearby.finish };

    // Low bits choose the group of the table, of which each has room for twelve edges; the highest tell these apart.
    fn finish(&self) -> u64 {
        let tag = self.sum.wrapping_mul(SPREAD) >> 56;
        self.sum / 8 % 0x100_0000 + tag * 0x100_0000
    }

    fn write(&mut self, bytes: &[u8]) {
        if bytes.len() == 4 {
            let coordinate = read_u32(bytes);
            let weight = WEIGHTS[(self.place % 8) as usize];
            self.sum = self.sum.wrapping_add(weight.wrapping_mul(coordinate));
            self.place = self.place % 8 + 1;
        } else {
            self.place = (self.place % 8 + 3) / 4 * 4;
        }
    }
}

// Four bytes as a number, the lowest first.
fn read_u32(bytes: &[u8]) -> u64
    requires { length bytes.now ≡ 4 }
    ensures { result ≡ nearby.read_u32 bytes.now }
{
    u64::from(u32::from_le_bytes([bytes[0], bytes[1], bytes[2], bytes[3]]))
}
