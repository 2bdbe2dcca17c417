//! Laws of the files of tables, and of the faults of bytes that are no table. The functions do nothing when they run.

ghost use Rattle.std.specs.Prelude.{◌≡◌, ℕ, List};
ghost use Rattle.iso_formats.specs.TableFile.{WrongEdgeStops, HasOneFault};
ghost use Rattle.iso_formats.specs.TableFile2.{FaultsExclude, FileFault, HasFileFault, HasOneTable};
ghost use Rattle.iso_model.specs.Tables.{Table};
ghost use Rattle.table_file.specs.Inverse.{IsReadBack, IsWrittenBack, KeepsLimit};
ghost use Rattle.table_file.specs.declared.heads.Version.{Version};

/// A byte of a tuple that is no edge's number is the first at which no table goes on, and no whole table and no count
/// past 2^28 stands before it.
pub fn wrong_edge_law()
    ensures { (bytes : List ℕ) (place : ℕ) → WrongEdgeStops bytes place }
{}

/// Bytes that are no table of version 1 have one fault of that version, and no other.
pub fn one_fault_law()
    ensures { (bytes : List ℕ) → HasOneFault bytes }
{}

/// No two tables have the same bytes, whichever of the two versions of table files each of them is written in.
pub fn one_table_law()
    ensures { (bytes : List ℕ) → HasOneTable bytes }
{}

/// Bytes have one fault at most, of whichever version, and the file of a table has none.
pub fn file_fault_law()
    ensures one { (bytes : List ℕ) (f g : FileFault) → HasFileFault bytes f → HasFileFault bytes g → f ≡ g }
    ensures excluded { (bytes : List ℕ) → FaultsExclude bytes }
{}

/// Reading and writing are inverse to each other in each version: what is written of a table is the file of that table,
/// and of no other; and where a file that begins as one of the version holds a table, just its bytes are written of it.
pub fn inverse_law()
    ensures read { (version : Version) (t : Table) → IsReadBack version t }
    ensures written { (version : Version) (bytes : List ℕ) (t : Table) → IsWrittenBack version bytes t }
{}

/// Version 2 of the table of a file that is not too long is not too long either, so it is the file of that table again.
pub fn limit_law()
    ensures { (bytes : List ℕ) (t : Table) → KeepsLimit bytes t }
{}
