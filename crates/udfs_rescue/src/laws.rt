//! Laws of mapfiles and images, each the contract of a function that does nothing.

ghost use Rattle.udfs_rescue.specs.ReadBack.{MapReadsBack, DomainIsRefused, DomainReadsBack, ImageMapReadsBack, ImageReadsBack, ImageIsPair};

/// A mapfile that was written is one, and makes exactly the blocks of status `+` known: of a table's image those that the table knows.
pub fn maps_read_back()
    ensures each { MapReadsBack }
    ensures image { ImageMapReadsBack }
{}

/// The map of wanted blocks is not taken for that of a pass: reading it fails with `NotPass` at its second line. Without this line it is a mapfile
/// that makes exactly the wanted blocks up to the last one known.
pub fn domains_are_marked()
    ensures refused { DomainIsRefused }
    ensures blocks { DomainReadsBack }
{}

/// The image of a table and its mapfile, read as a pair, have the table up to the last block, without its conflicts. Opening them
/// fails only if a device fails or memory runs out.
pub fn images_read_back()
    ensures table { ImageReadsBack }
    ensures pair { ImageIsPair }
{}
