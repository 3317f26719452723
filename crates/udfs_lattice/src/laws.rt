//! Laws of tables, each the contract of a function that does nothing.
ghost use Rattle.std.specs.Prelude.{◌≡◌, ◌⊎◌, ◌↔◌, ◌≤◌, ℕ, List, map};
ghost use Rattle.udfs_lattice.specs.declared.facts.Fact.TheVariants.{Known, Conflict};
ghost use Rattle.udfs_lattice.specs.Laws.{AscendingContains, CompleteAgrees, CompleteKnows, EntriesMakeTable, EntriesRise, EntriesTellStates, EntryAdded, EntryBefore, FewEntries, RecordAdded, ForgettingAllCommutes, ForgettingCommutes, NamedAreContained, RecordsMakeJoin, RisingAreEntries, RisingMakeTable, SetMakesTable, SettlingCommutes, TableAdded, TablesMakeJoin};
ghost use Rattle.udfs_lattice.specs.Records.{Record, IsTableOf, SameRecords, table_of, table_of_entries, RisesFrom, join_all, IsLeastAbove, SameTables, all_records};
ghost use Rattle.udfs_lattice.specs.States.{State};
ghost use Rattle.udfs_lattice.specs.Volumes.{Volume, Agrees, complete, ascending};
ghost use Rattle.udfs_lattice.specs.Tables.{Table, state_of, entries_of, IsStateAt, IsTable, IsTableBelow, join_tables};

use crate::table::LAST_BLOCK;

/// Two tables that say the same of each block are one table.
pub fn states_make_the_table()
    ensures { (t u : Table) → ((n : ℕ) → state_of t n ≡ state_of u n) → t ≡ u }
{}

/// The table of a list of records says of each block what its records say.
pub fn table_of_records()
    ensures { (rs : List Record) → IsTableOf rs (table_of rs) }
{}

/// Neither the order of the records nor how often each comes is in their table.
pub fn table_of_set()
    ensures { SetMakesTable }
{}

/// The join is the least table above both.
pub fn join_is_least()
    ensures above_first { (t u : Table) → IsTableBelow t (join_tables t u) }
    ensures above_second { (t u : Table) → IsTableBelow u (join_tables t u) }
    ensures least { (t u v : Table) → IsTableBelow t v → IsTableBelow u v
        → IsTableBelow (join_tables t u) v }
    ensures only { (t u : Table) → IsTableBelow t u → IsTableBelow u t → t ≡ u }
{}

/// The join of several tables is the least one above them all. Neither their order nor how often each
/// comes is in it, and the join of the tables of several lists of records is the table of all of them.
pub fn join_of_all()
    ensures least { (ts : List Table) → IsLeastAbove ts (join_all ts) }
    ensures same { TablesMakeJoin }
    ensures records { RecordsMakeJoin }
{}

/// A table is that of its entries, whose block numbers rise; and rising entries are those of their table. They are the
/// blocks of which the table says something, each with what it says, and no more than there are blocks.
pub fn entries_make_the_table()
    ensures rise { EntriesRise }
    ensures table { EntriesMakeTable }
    ensures entries { RisingAreEntries }
    ensures is_table { RisingMakeTable }
    ensures few { FewEntries }
    ensures tell { EntriesTellStates }
{}

/// A complete volume agrees with the table that knows all of it, which is each block up to the last one with the volume's
/// bytes; and where one table lies below another, the other knows each block that the one knows with the same bytes, or
/// has it in conflict.
pub fn complete_volume_agrees()
    ensures complete { CompleteAgrees }
    ensures knows { CompleteKnows }
    ensures above { (t u : Table) (n : ℕ) (bytes : List ℕ) → IsTableBelow t u → state_of t n ≡ Known bytes →
        (state_of u n ≡ Known bytes) ⊎ (state_of u n ≡ Conflict) }
{}

/// The ascending list of some numbers has these numbers and no other.
pub fn ascending_has_the_same_numbers()
    ensures { AscendingContains }
{}

/// The blocks of which a table can say anything are those up to [`LAST_BLOCK`].
pub fn blocks_end_at_the_last()
    ensures { (n : ℕ) → IsStateAt n Conflict ↔ (n ≤ LAST_BLOCK) }
{}

/// One more record, entry or table after the others is joined in; and so is an entry before the others.
pub fn one_more_is_joined()
    ensures record { RecordAdded }
    ensures entry { EntryAdded }
    ensures table { TableAdded }
    ensures before { EntryBefore }
{}

/// To forget a block, or several, or those in conflict, commutes with joining a table that says nothing of them.
pub fn forgetting_commutes_with_joining()
    ensures one { ForgettingCommutes }
    ensures several { ForgettingAllCommutes }
    ensures conflicts { SettlingCommutes }
    ensures named { NamedAreContained }
{}
