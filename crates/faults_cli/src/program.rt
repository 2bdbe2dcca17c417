//! The top call.

ghost use Rattle.std.specs.Prelude.{◌≡◌, IfErr, IsSome};
ghost use Rattle.iso_base.specs.Faults.{Rose};
ghost use Rattle.iso_words.specs.Built.{EachSaid, texts};
ghost use Rattle.iso_cli.specs.Outputs.{LeavesOutput};
ghost use Rattle.iso_cli.specs.Runs.{HoldNeeded, IsAnswerable, IsTrueAnswer, LacksFile, SayBuilt};
ghost use Rattle.iso_cli.specs.Runs.{LeavesRest, LeavesShelf, PutsLine, ServesWell};
ghost use Rattle.iso_cli.specs.Statuses.{IsDoneOrMemory};
ghost use Rattle.faults_cli.specs.Endings.{IsOfListing, as_of_convert, status_of};
ghost use Rattle.faults_cli.specs.Listings.{IsNamedListing, as_convert};

use crate::listing::list_faults;
use crate::verdict::Verdict;
use iso_base::{Shelf, Sink, put_all};
use iso_cli::{Status, status_text};
use iso_words::parse_table;
use std::alloc::Global;

/// Puts the text of all faults of the table whose file the words name, or the line for an accepted table. Where it could
/// not, it puts the line of the status to `err`.
///
/// `words` are the words after the program's name: `table=F` alone. Nothing is put before every refusal is past. A
/// failure of `err` changes no ending.
pub fn run<S: Shelf, O: Sink, E: Sink>(
    alloc: Global,
    words: &[String],
    shelf: &mut S,
    out: &mut O,
    err: &mut E,
) -> Result<Verdict, Status>
    // Words and files are refused as `iso` refuses them behind its word `convert`, with words counted from this
    // program's first.
    ensures answer { IsTrueAnswer (S.files shelf.old) (as_convert (texts words.now)) (as_of_convert (status_of result)) }
    ensures kinds { IfErr result IsOfListing }

    // Where the outside serves well, the output is whole, or memory was refused, if no refusal holds, and so if the
    // files are told and hold a table.
    ensures complete { ¬ Rose (O.faults out.old) (O.faults out.new)
        → ServesWell S.faults S.files S.sound (as_convert (texts words.now)) shelf.old shelf.new
        → IsAnswerable (S.files shelf.old) (as_convert (texts words.now))
        → IsDoneOrMemory (status_of result) }
    ensures served { ¬ Rose (O.faults out.old) (O.faults out.new)
        → ServesWell S.faults S.files S.sound (as_convert (texts words.now)) shelf.old shelf.new
        → IsSome (S.files shelf.old) → SayBuilt (as_convert (texts words.now)) (HoldNeeded (S.files shelf.old))
        → IsDoneOrMemory (status_of result) }

    ensures shelf { LeavesShelf S.faults S.files S.sound
        (SayBuilt (as_convert (texts words.now)) (LacksFile (S.files shelf.old))) (status_of result) shelf.old shelf.new }
    // The text is that of the table's faults, and the verdict is on the same table.
    ensures output { LeavesOutput O.faults O.bytes
        (IsNamedListing (S.files shelf.old) (texts words.now) result) (status_of result) out.old out.new }
    // A table file that is too long is left behind the first byte past the limit.
    ensures left { EachSaid (as_convert (texts words.now))
        (LeavesRest (S.files shelf.old) (status_of result) (S.rest shelf.new)) }

    ensures line { PutsLine E.faults E.bytes (status_of result) err.old err.new }
{
    let ended = perform(alloc, words, shelf, out);
    if let Err(status) = &ended {
        let text = status_text(status);
        let _ = put_all(err, text.as_str().as_bytes());
    }
    ended
}

// What the words ask.
fn perform<S: Shelf, O: Sink>(
    alloc: Global,
    words: &[String],
    shelf: &mut S,
    out: &mut O,
) -> Result<Verdict, Status>
    ensures answer { IsTrueAnswer (S.files shelf.old) (as_convert (texts words.now)) (as_of_convert (status_of result)) }
    ensures kinds { IfErr result IsOfListing }
    ensures shelf { LeavesShelf S.faults S.files S.sound
        (SayBuilt (as_convert (texts words.now)) (LacksFile (S.files shelf.old))) (status_of result) shelf.old shelf.new }
    ensures output { LeavesOutput O.faults O.bytes
        (IsNamedListing (S.files shelf.old) (texts words.now) result) (status_of result) out.old out.new }
    ensures left { EachSaid (as_convert (texts words.now))
        (LeavesRest (S.files shelf.old) (status_of result) (S.rest shelf.new)) }
{
    match parse_table(words) {
        Ok(name) => list_faults(alloc, name, shelf, out),
        Err(wrong) => Err(Status::Usage(wrong.0)),
    }
}
