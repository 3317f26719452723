//! Laws of lawful volumes, each the contract of a function that does nothing.
ghost use Rattle.udfs_lawfulness.specs.ByTables.{LayoutByTables, SparingByTables, TreeByTables};
ghost use Rattle.udfs_lawfulness.specs.Laws.{SomeManyForms};

/// There is a lawful volume, by the strict rules, of UDF 2.01, with a spared packet, in which entries, descriptors, directories and names have
/// forms that the volumes of `some_volume_is_lawful` have not: an extended entry, long descriptors, a continuation, an extent that is not
/// recorded, a directory over two blocks, a name of a 16-bit unit, and a CRC of 208 bytes.
pub fn some_lawful_volume_has_many_forms()
    ensures { SomeManyForms }
{}

/// The tree of a lawful volume, by the rules of any profile, is the one that the standard's tables give: the root by the table of the file
/// set, and each path with its file by those of entries, allocation descriptors, allocation extents and identifiers.
pub fn lawful_trees_are_by_the_tables()
    ensures { TreeByTables }
{}

/// The layout of a lawful volume, by the rules of any profile, is the one that the standard's tables give: of its first valid anchor, and of
/// the descriptors in the blocks of the main sequence that this names.
pub fn lawful_layouts_are_by_the_tables()
    ensures { LayoutByTables }
{}

/// Each copy of a sparing table of a lawful volume, by the rules of any profile, is one by the standard's table, and has the used entries by
/// which blocks are placed.
pub fn lawful_sparing_is_by_the_tables()
    ensures { SparingByTables }
{}
