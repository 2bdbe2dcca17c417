//! The top call.

ghost use Rattle.std.specs.Prelude.{◌≡◌, ◌^◌, ◌≤◌, IsSome, unsigned_abs};
ghost use Rattle.iso_base.specs.Faults.{Rose};
ghost use Rattle.iso_commands.specs.Commands.{audit_command, check_command, convert_command, extract_command};
ghost use Rattle.iso_commands.specs.Commands.{IsRange, spectrum_command};
ghost use Rattle.iso_words.specs.Built.{EachSaid, texts};
ghost use Rattle.iso_cli.specs.Outputs.{LeavesOutput};
ghost use Rattle.iso_cli.specs.Runs.{HoldNeeded, IsAnswerable, IsOutput, IsTrueAnswer, IsTrueOf, LacksFile, SayBuilt};
ghost use Rattle.iso_cli.specs.Runs.{LeavesRest, LeavesShelf, NeedsNoFile, PutsLine, ServesWell};
ghost use Rattle.iso_cli.specs.Statuses.{IsDoneOrMemory, IsUsage};

use crate::audits::read_glued;
use crate::demo::put_demonstration;
use crate::files::{read_both, read_checked, read_table};
use crate::line::status_text;
use crate::output::{put_accepted, put_clean, put_mesh, put_table, put_version_2};
use crate::spectra::{put_spectrum, read_grid_for};
use crate::status::Status;
use crate::workers::Workers;
use cell_lattice::Kind;
use iso_base::{Gate, Shelf, Sink, put_all};
use iso_words::{Command, WrongWord, parse};
use std::alloc::Global;
use std::thread::Threads;

/// Does what the words ask, and puts the line of the status to `err`, unless it is `Done`.
///
/// `words` are the words after the program's name. The shelf gives the files that they name, and `out` takes the
/// output, of which nothing is put before every refusal is past. A failure of `err` changes no status.
///
/// A table is made and checked in four parts, for which `rt` starts threads; each part passes `gate` as it starts. What
/// is put and answered does not depend on them.
pub fn run<R: Threads + Sync, S: Shelf, O: Sink, E: Sink, G: Gate + Sync>(
    rt: &R,
    alloc: Global,
    words: &[String],
    shelf: &mut S,
    out: &mut O,
    err: &mut E,
    gate: &G,
) -> Status
    ensures answer { IsTrueAnswer (S.files shelf.old) (texts words.now) result }

    // Where the outside serves well, the output is whole, or memory was refused, if no refusal holds, and so if the
    // files are told and hold what the command needs.
    ensures complete { ¬ Rose (O.faults out.old) (O.faults out.new)
        → ServesWell S.faults S.files S.sound (texts words.now) shelf.old shelf.new
        → IsAnswerable (S.files shelf.old) (texts words.now)
        → IsDoneOrMemory result }
    ensures served { ¬ Rose (O.faults out.old) (O.faults out.new)
        → ServesWell S.faults S.files S.sound (texts words.now) shelf.old shelf.new
        → IsSome (S.files shelf.old) → SayBuilt (texts words.now) (HoldNeeded (S.files shelf.old))
        → IsDoneOrMemory result }

    ensures shelf { LeavesShelf S.faults S.files S.sound
        (SayBuilt (texts words.now) (LacksFile (S.files shelf.old))) result shelf.old shelf.new }
    ensures output { LeavesOutput O.faults O.bytes
        (λ text. SayBuilt (texts words.now) (IsOutput (S.files shelf.old) text)) result out.old out.new }
    // A table file that is too long is left behind the first byte past the limit, and a grid file that is refused by
    // its dimension or its size behind its header. Of a mesh file nothing is left, unless it is too long.
    ensures left { EachSaid (texts words.now) (LeavesRest (S.files shelf.old) result (S.rest shelf.new)) }
    // A command that reads no file, as that which generates a table, leaves the shelf alone.
    ensures generated { NeedsNoFile (S.files shelf.old) (texts words.now) result shelf.old shelf.new }

    ensures line { PutsLine E.faults E.bytes result err.old err.new }
{
    let workers = Workers { rt, alloc, gate };
    let status = perform(&workers, words, shelf, out);
    if status != Status::Done {
        let text = status_text(&status);
        let _ = put_all(err, text.as_str().as_bytes());
    }
    status
}

// What the words ask.
fn perform<R: Threads + Sync, S: Shelf, O: Sink, G: Gate + Sync>(
    workers: &Workers<R, G>,
    words: &[String],
    shelf: &mut S,
    out: &mut O,
) -> Status
    ensures answer { IsTrueAnswer (S.files shelf.old) (texts words.now) result }
    ensures shelf { LeavesShelf S.faults S.files S.sound
        (SayBuilt (texts words.now) (LacksFile (S.files shelf.old))) result shelf.old shelf.new }
    ensures output { LeavesOutput O.faults O.bytes
        (λ text. SayBuilt (texts words.now) (IsOutput (S.files shelf.old) text)) result out.old out.new }
    ensures left { EachSaid (texts words.now) (LeavesRest (S.files shelf.old) result (S.rest shelf.new)) }
    ensures generated { NeedsNoFile (S.files shelf.old) (texts words.now) result shelf.old shelf.new }
{
    match parse(words) {
        Ok(Command::Generate { kind, dim }) => put_table(workers, kind, dim, out),
        Ok(Command::Check { table }) => check(workers, table, shelf, out),
        Ok(Command::Extract { table, grid, iso }) => extract(workers, table, grid, iso, shelf, out),
        Ok(
            Command::Demo {
                kind,
                dim,
                size,
                seed,
            },
        ) => put_demonstration(workers, kind, dim, size, seed, out),
        Ok(Command::Convert { table }) => convert(workers.alloc, table, shelf, out),
        Ok(Command::Audit { mesh }) => audit(workers.alloc, mesh, shelf, out),
        Ok(
            Command::Spectrum {
                kind,
                grid,
                from,
                to,
            },
        ) => count(workers.alloc, kind, grid, from, to, shelf, out),
        Err(WrongWord(place)) => Status::Usage(place),
    }
}

// Says that the table of a file is accepted, or why not.
fn check<R: Threads + Sync, S: Shelf, O: Sink, G: Gate + Sync>(
    workers: &Workers<R, G>,
    table: &str,
    shelf: &mut S,
    out: &mut O,
) -> Status
    ensures known { ¬ IsUsage result }
    ensures answer { IsTrueOf (S.files shelf.old) result (check_command table.now) }
    ensures shelf { LeavesShelf S.faults S.files S.sound
        (LacksFile (S.files shelf.old) (check_command table.now)) result shelf.old shelf.new }
    ensures output { LeavesOutput O.faults O.bytes
        (λ text. IsOutput (S.files shelf.old) text (check_command table.now)) result out.old out.new }
    ensures left { LeavesRest (S.files shelf.old) result (S.rest shelf.new) (check_command table.now) }
{
    match read_checked(workers, shelf, table) {
        Ok(_) => put_accepted(out),
        Err(status) => status,
    }
}

// Puts the table of a file in version 2, whether or not it is accepted.
fn convert<S: Shelf, O: Sink>(alloc: Global, table: &str, shelf: &mut S, out: &mut O) -> Status
    ensures known { ¬ IsUsage result }
    ensures answer { IsTrueOf (S.files shelf.old) result (convert_command table.now) }
    ensures shelf { LeavesShelf S.faults S.files S.sound
        (LacksFile (S.files shelf.old) (convert_command table.now)) result shelf.old shelf.new }
    ensures output { LeavesOutput O.faults O.bytes
        (λ text. IsOutput (S.files shelf.old) text (convert_command table.now)) result out.old out.new }
    ensures left { LeavesRest (S.files shelf.old) result (S.rest shelf.new) (convert_command table.now) }
{
    match read_table(alloc, shelf, table) {
        Ok(table) => put_version_2(alloc, &table, out),
        Err(status) => status,
    }
}

// Says that the simplices of a mesh file are glued, or what else is found.
fn audit<S: Shelf, O: Sink>(alloc: Global, mesh: &str, shelf: &mut S, out: &mut O) -> Status
    ensures known { ¬ IsUsage result }
    ensures answer { IsTrueOf (S.files shelf.old) result (audit_command mesh.now) }
    ensures shelf { LeavesShelf S.faults S.files S.sound
        (LacksFile (S.files shelf.old) (audit_command mesh.now)) result shelf.old shelf.new }
    ensures output { LeavesOutput O.faults O.bytes
        (λ text. IsOutput (S.files shelf.old) text (audit_command mesh.now)) result out.old out.new }
    ensures left { LeavesRest (S.files shelf.old) result (S.rest shelf.new) (audit_command mesh.now) }
{
    match read_glued(alloc, shelf, mesh) {
        Ok(boundary) => put_clean(boundary, out),
        Err(status) => status,
    }
}

// Says how many vertices the mesh of a grid has at each isovalue of a range.
fn count<S: Shelf, O: Sink>(
    alloc: Global,
    kind: Kind,
    grid: &str,
    from: i64,
    to: i64,
    shelf: &mut S,
    out: &mut O,
) -> Status
    requires from { unsigned_abs from ≤ 2 ^ 40 }
    requires to { unsigned_abs to ≤ 2 ^ 40 }
    requires range { IsRange from to }
    ensures known { ¬ IsUsage result }
    ensures answer { IsTrueOf (S.files shelf.old) result (spectrum_command kind grid.now from to) }
    ensures shelf { LeavesShelf S.faults S.files S.sound
        (LacksFile (S.files shelf.old) (spectrum_command kind grid.now from to)) result shelf.old shelf.new }
    ensures output { LeavesOutput O.faults O.bytes
        (λ text. IsOutput (S.files shelf.old) text (spectrum_command kind grid.now from to)) result out.old out.new }
    ensures left { LeavesRest (S.files shelf.old) result (S.rest shelf.new) (spectrum_command kind grid.now from to) }
{
    match read_grid_for(alloc, shelf, grid, kind) {
        Ok(grid) => put_spectrum(alloc, kind, &grid, from, to, out),
        Err(status) => status,
    }
}

// Puts the mesh of a grid, by a table, at an isovalue.
fn extract<R: Threads + Sync, S: Shelf, O: Sink, G: Gate + Sync>(
    workers: &Workers<R, G>,
    table: &str,
    grid: &str,
    iso: i64,
    shelf: &mut S,
    out: &mut O,
) -> Status
    requires iso { unsigned_abs iso ≤ 2 ^ 40 }
    ensures known { ¬ IsUsage result }
    ensures answer { IsTrueOf (S.files shelf.old) result (extract_command table.now grid.now iso) }
    ensures shelf { LeavesShelf S.faults S.files S.sound
        (LacksFile (S.files shelf.old) (extract_command table.now grid.now iso)) result shelf.old shelf.new }
    ensures output { LeavesOutput O.faults O.bytes
        (λ text. IsOutput (S.files shelf.old) text (extract_command table.now grid.now iso)) result out.old out.new }
    ensures left { LeavesRest (S.files shelf.old) result (S.rest shelf.new) (extract_command table.now grid.now iso) }
{
    match read_both(workers, shelf, table, grid) {
        Ok((table, grid)) => put_mesh(workers.alloc, &table, &grid, iso, out),
        Err(status) => status,
    }
}
