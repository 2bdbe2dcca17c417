//! Mixed cubes of small grids, whose samples are letters.

ghost use Rattle.std.specs.Prelude.{None};

use crate::{CubePlace, mixed_cubes};
use iso_base::{Failed, Shelf};
use nrrd_raw::read_grid;
use std::test::Fail;

/// One file.
#[derive(Drop)]
struct OneFile<'a> {
    bytes: &'a [u8],
}

impl Shelf for OneFile<'_> {
    ghost files = { λ _. None };

    ghost rest = { λ _. None };

    ghost faults = { λ _. 0 };

    ghost sound = { λ _. ⊥ };

    fn begin(&mut self, _: &str) -> Result<(), Failed> {
        Ok(())
    }

    fn take(&mut self, buf: &mut [u8]) -> Result<usize, Failed> {
        let count = self.bytes.len().min(buf.len());
        buf[..count].copy_from_slice(&self.bytes[..count]);
        self.bytes = &self.bytes[count..];
        Ok(count)
    }

    ghost sound_tells = { λ _ none. absurd none };

    ghost rest_told = { λ _. (λ h. h, λ h. h) };
}

#[test]
fn a_cube_is_mixed_where_its_samples_differ_in_sign(rt: HostRuntime) -> Result<(), Fail> {
    let cases: [(&str, &[(u32, u32)]); 6] = [
        ("dimension: 2\nsizes: 3 2\n\nazzazz", &[(0, 0)]),
        ("dimension: 2\nsizes: 3 3\n\naaaaaaaaz", &[(3, 4)]),
        ("dimension: 2\nsizes: 3 2\n\nmmmmmm", &[]),
        ("dimension: 2\nsizes: 3 2\n\nlmmmmm", &[(0, 0)]),
        ("dimension: 3\nsizes: 2 2 3\n\naaaaaaaaaaaz", &[(1, 4)]),
        (
            "dimension: 4\nsizes: 3 2 2 2\n\naazaazaazaazaazaazaazaaz",
            &[(1, 1)],
        ),
    ];
    for (lines, want) in cases {
        let text = format!(in rt.alloc(); "NRRD0001\ntype: uint8\nencoding: raw\n{lines}")?;
        let grid = read_grid(
            rt.alloc(),
            &mut OneFile {
                bytes: text.as_bytes(),
            },
        )?;
        let cubes = mixed_cubes(rt.alloc(), &grid, 109)?;
        assert_eq!(rt; cubes.len(), want.len(), "{lines}");
        for (cube, (number, sample)) in cubes.iter().zip(want) {
            let place = CubePlace {
                number: *number,
                sample: *sample,
            };
            assert_eq!(rt; *cube, place, "{lines}");
        }
    }
    Ok(())
}
