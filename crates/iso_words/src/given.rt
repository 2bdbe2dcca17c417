//! The values that the words of a command gave so far.

ghost use Rattle.std.specs.Prelude.{◌≡◌, ◌+◌, ℕ, ℤ, [], is_some, not, ◌&&◌, IfSome, IfNone};
ghost use Rattle.std.specs.Bool.{OnTrue, OnFalse};

use crate::Command;
use crate::keys::{CommandName, Key};
use crate::values::{
    dimension_beside, file_name, first_isovalue, isovalue, kind_beside, last_isovalue, seed,
    size_beside,
};
use iso_model::Kind;

/// The value of each key that stood.
#[derive(Clone, Copy)]
pub(crate) struct Given<'a> {
    kind: Option<Kind>,
    dim: Option<u8>,
    size: Option<u64>,
    seed: Option<u32>,
    table: Option<&'a str>,
    grid: Option<&'a str>,
    iso: Option<i64>,
    mesh: Option<&'a str>,
    from: Option<i64>,
    to: Option<i64>,
}

impl<'a> Given<'a> {
    ghost use Rattle.iso_words.specs.Given.{BeginsNone, EachLonger, Gave, IsWhole, Lacks, given_count};

    // Nothing yet.
    pub(crate) fn nothing() -> Given<'a>
        ensures gave { (name : CommandName) → Gave name [] result }
        ensures count { given_count result ≡ 0 }
    {
        Given {
            kind: None,
            dim: None,
            size: None,
            seed: None,
            table: None,
            grid: None,
            iso: None,
            mesh: None,
            from: None,
            to: None,
        }
    }

    // Takes the value of one more word of a command, or changes nothing where no right list goes on with the word.
    pub(crate) fn take(&mut self, name: CommandName, word: &'a str) -> bool
        ensures taken { EachLonger name self.old word.entry.now (λ longer. OnTrue result (Gave name longer self.new)) }
        ensures refused { EachLonger name self.old word.entry.now (λ longer. OnFalse result (BeginsNone name longer)) }
        ensures count { OnTrue result (given_count self.new ≡ given_count self.old + 1) }
        ensures same { OnFalse result (self.new ≡ self.old) }
    {
        let Some((key, value)) = Key::with_value(word) else {
            return false;
        };
        if !name.has(key) {
            return false;
        }
        match key {
            Key::Kind => put(&mut self.kind, kind_beside(self.dim, self.size, value)),
            Key::Dim => put(&mut self.dim, dimension_beside(self.kind, self.size, value)),
            Key::Size => put(&mut self.size, size_beside(self.kind, self.dim, value)),
            Key::Seed => put(&mut self.seed, seed(value)),
            Key::Table => put(&mut self.table, file_name(value)),
            Key::Grid => put(&mut self.grid, file_name(value)),
            Key::Iso => put(&mut self.iso, isovalue(value)),
            Key::Mesh => put(&mut self.mesh, file_name(value)),
            Key::From => put(&mut self.from, first_isovalue(self.to, value)),
            Key::To => put(&mut self.to, last_isovalue(self.from, value)),
        }
    }

    // The command, if no key of it is missing.
    pub(crate) fn command(self, name: CommandName) -> Option<Command<'a>>
        ensures said { IfSome result (IsWhole name self.entry) }
        ensures early { IfNone result (Lacks name self.entry) }
    {
        match name {
            CommandName::Generate => match (self.kind, self.dim) {
                (Some(kind), Some(dim)) => Some(Command::Generate { kind, dim }),
                _ => None,
            },
            CommandName::Check => match self.table {
                Some(table) => Some(Command::Check { table }),
                None => None,
            },
            CommandName::Extract => match (self.table, self.grid, self.iso) {
                (Some(table), Some(grid), Some(iso)) => Some(Command::Extract { table, grid, iso }),
                _ => None,
            },
            CommandName::Demo => match (self.kind, self.dim, self.size, self.seed) {
                (Some(kind), Some(dim), Some(size), Some(seed)) => Some(Command::Demo {
                    kind,
                    dim,
                    size,
                    seed,
                }),
                _ => None,
            },
            CommandName::Convert => match self.table {
                Some(table) => Some(Command::Convert { table }),
                None => None,
            },
            CommandName::Audit => match self.mesh {
                Some(mesh) => Some(Command::Audit { mesh }),
                None => None,
            },
            CommandName::Spectrum => match (self.kind, self.grid, self.from, self.to) {
                (Some(kind), Some(grid), Some(from), Some(to)) => Some(Command::Spectrum {
                    kind,
                    grid,
                    from,
                    to,
                }),
                _ => None,
            },
        }
    }
}

// Puts a value where there was none, or changes nothing.
fn put<T: Copy>(place: &mut Option<T>, value: Option<T>) -> bool
    ensures first { result ≡ (not (is_some place.old) && is_some value) }
    ensures value { OnTrue result (place.new ≡ value) }
    ensures same { OnFalse result (place.new ≡ place.old) }
{
    if place.is_some() || value.is_none() {
        return false;
    }
    *place = value;
    true
}
