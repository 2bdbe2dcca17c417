//! The words of the program: the command that they say, and the first wrong word where they say none.
//!
//! The first word is the command, and every further one is a key, `=` and a value; a key ends at the first `=`.
//! Each key of the command stands exactly once, in any order:
//!
//! | words | asks |
//! |---|---|
//! | `generate kind=K dim=N` | the table of the construction, of a kind and a dimension |
//! | `check table=F` | whether the table of the file is accepted |
//! | `extract table=F grid=F iso=N` | the mesh of the grid at the isovalue |
//! | `demo kind=K dim=N size=N seed=N` | what the demonstration says of a mesh of a grid that is made |
//! | `convert table=F` | the table of the file in version 2 of the format |
//! | `audit mesh=F` | whether the simplices of the mesh file are glued |
//! | `spectrum kind=K grid=F from=N to=N` | the number of vertices of the grid's mesh at each isovalue of a range |
//!
//! K is `cube`, `simplex` or `pyramid`, and F is a file name of at least one character. N is an optional `-` and
//! digits, without a leading zero but `0` itself, and not `-0`. A dimension is 2, 3 or 4, and 3 with `pyramid`; a size
//! lies from 1 to 256 in two dimensions, to 64 in three and to 16 in four; a seed lies from 0 to 4294967295, and an
//! isovalue, as each end of a range, from -1099511627776 to 1099511627776. A range goes up, or has one isovalue, and
//! has at most 65,536. Letter case matters everywhere.
#![tactic(auto)]

ghost use Rattle.std.specs.Prelude.{◌≡◌, ℕ, ◌+◌, ◌≤◌, ◌∷◌, codes, IfOk, IfErr, IsOkAnd, IsErrAnd};
ghost use Rattle.iso_commands.specs.Commands.{Say, IsWrongWord, convert_command};
ghost use Rattle.iso_words.specs.Built.{EachSaid, is_built, texts, asked};
ghost use Rattle.iso_words.specs.Given.{SayNamed, name_of};
ghost use Rattle.iso_words.specs.Keys.{name_text};

mod given;
mod keys;
mod values;

use given::Given;
use iso_model::Kind;
use keys::CommandName;

/// What the words ask for.
#[derive(Clone, Copy, Debug, PartialEq, Eq)]
pub enum Command<'a> {
    /// Generate the table of a kind and a dimension: 2, 3 or 4, and 3 of pyramids.
    Generate {
        kind: Kind,
        dim: u8,
    },
    /// Check the table of a file.
    Check {
        table: &'a str,
    },
    /// Extract the mesh of a grid, by a table, at an isovalue.
    Extract {
        table: &'a str,
        grid: &'a str,
        iso: i64,
    },
    /// Say numbers of the mesh of a grid that is made of a seed, with as many samples on each axis.
    Demo {
        kind: Kind,
        dim: u8,
        size: u64,
        seed: u32,
    },
    /// Put the table of a file in version 2 of the format.
    Convert {
        table: &'a str,
    },
    /// Audit a mesh file.
    Audit {
        mesh: &'a str,
    },
    /// Count the vertices of the meshes of a grid, split into cells of a kind, at each isovalue of a range.
    Spectrum {
        kind: Kind,
        grid: &'a str,
        from: i64,
        to: i64,
    },
}

/// The first wrong word, counted from 1: no right list of words begins with the words up to it. Where the list
/// ends too early it is the length of the list plus 1.
#[derive(Clone, Copy, Debug, PartialEq, Eq)]
pub struct WrongWord(pub u32);

/// The command that the words say, or the first wrong word. `words` are the words after the program's name.
pub fn parse(words: &[String]) -> Result<Command<'_>, WrongWord>
    ensures said { IfOk result (λ command. Say (texts words.now) (asked command)) }
    ensures exact { EachSaid (texts words.now) (λ command. IsOkAnd result (λ given. asked given ≡ command)) }
    ensures wrong { (n : ℕ) → IsWrongWord is_built (texts words.now) n → IsErrAnd result (λ wrong. wrong.0 ≡ n) }
    ensures place { IfErr result (λ wrong. IsWrongWord is_built (texts words.now) wrong.0) }
{
    let Some((first, further)) = words.split_first() else {
        return Err(WrongWord(1));
    };
    let Some(name) = CommandName::named(first.as_str()) else {
        return Err(WrongWord(1));
    };
    match parse_further(name, further) {
        Ok(command) => Ok(command),
        Err(wrong) => Err(WrongWord(wrong.0 + 1)),
    }
}

/// The name of a table's file, where the words are those behind `convert`: the one word `table=F`. Else the first wrong
/// word, counted from this one as 1.
pub fn parse_table(words: &[String]) -> Result<&str, WrongWord>
    ensures said { IfOk result (λ table. Say (codes "convert" ∷ texts words.now) (convert_command table.now)) }
    ensures place { IfErr result (λ wrong. IsWrongWord is_built (codes "convert" ∷ texts words.now) (wrong.0 + 1)) }
{
    match parse_further(CommandName::Convert, words)? {
        Command::Convert { table } => Ok(table),
        _ => unreachable!(),
    }
}

/// The command of this name that the words behind it say, or the first wrong one of these, counted from 1.
fn parse_further(name: CommandName, further: &[String]) -> Result<Command<'_>, WrongWord>
    ensures named { IfOk result (λ command. name_of command ≡ name) }
    ensures said { IfOk result (λ command. SayNamed name (texts further.now) command) }
    ensures place { IfErr result (λ wrong. IsWrongWord is_built (name_text name ∷ texts further.now) (wrong.0 + 1)) }
    ensures few { IfErr result (λ wrong. wrong.0 ≤ 101) }
{
    let mut given = Given::nothing();
    for (i, word) in further.iter().enumerate() {
        if !given.take(name, word.as_str()) {
            return Err(WrongWord(i as u32 + 1));
        }
    }
    match given.command(name) {
        Some(command) => Ok(command),
        None => Err(WrongWord(further.len() as u32 + 1)),
    }
}
