//! Laws of bodies and directories, each the contract of a function that does nothing.
ghost use Rattle.udfs_file.specs.FoundNames.{FoundNamesAreThere};
ghost use Rattle.udfs_file.specs.Laws.{BodyLength, NamesAreParts, PartialBodies, PartialDescriptors, PartialFileSet, TailKeepsBodies, WideTakesTags};
ghost use Rattle.udfs_file.specs.Complete.{BodyLaw, DescriptorsAreShort, DirectoryLaw, FileSetLaw, NeverStops, ReadsLaw, StandardBodies, StandardDirectories};
ghost use Rattle.udfs_file.specs.Sample.{HaveSampleFiles, SampleFileSet};

/// Of partitions of which a part is known, the file set names the root of the whole exactly if its block is
/// known.
pub fn partial_file_set()
    ensures { PartialFileSet }
{}

/// Over complete partitions the file set names the root that the standard reads.
pub fn file_set_is_read()
    ensures { FileSetLaw }
{}

/// Of partitions of which a part is known, bodies and directories are those of the whole, as far as no needed
/// block is missing.
pub fn partial_bodies()
    ensures { PartialBodies }
{}

/// The descriptors of a directory in a part of a body are a beginning of those in the whole.
pub fn partial_descriptors()
    ensures { PartialDescriptors }
{}

/// No missing block ends a directory whose cells are all there.
pub fn complete_directory_never_stops()
    ensures { NeverStops }
{}

/// A directory reads in one way only.
pub fn only_reading()
    ensures { ReadsLaw }
{}

/// Over complete cells a directory without a fault is the one list that the standard reads.
pub fn directory_is_read()
    ensures { DirectoryLaw }
{}

/// Over complete partitions a body without a fault is the one that the standard reads.
pub fn body_is_read()
    ensures { BodyLaw }
{}

/// Back: over complete partitions a body that the standard reads has no fault, and is the body by the definition.
pub fn standard_bodies_are_read()
    ensures { StandardBodies }
{}

/// Back: a directory whose body is a list of descriptors of at most 2048 bytes each has no fault, and lists these.
pub fn standard_directories_are_read()
    ensures { StandardDirectories }
{}

/// Each descriptor of a directory has at most 2048 bytes.
pub fn descriptors_are_short()
    ensures { DescriptorsAreShort }
{}

/// The escaped name of each entry of a directory is a valid path component: it is not empty, not `.` or `..`, and has no `/` and no
/// control character.
pub fn names_are_parts()
    ensures { NamesAreParts }
{}

/// A body without a fault stays as it is where the tail of a last extent is taken too.
pub fn the_tail_keeps_bodies()
    ensures { TailKeepsBodies }
{}

/// A directory without a fault by the strict rules is the same by the wide ones, and of any these read at least what those read.
pub fn wide_takes_tags()
    ensures { WideTakesTags }
{}

/// What is found at a place of a directory of which a part is known is in the whole at that place, and an entry of the whole is found
/// there if no byte of its descriptor is missing.
pub fn found_names_are_there()
    ensures { FoundNamesAreThere }
{}

/// A body without a fault has as many cells as the information length says.
pub fn body_has_its_length()
    ensures { BodyLength }
{}

/// There are file sets that are found: the contents of the sample volumes' partitions are blocks, and the file set names
/// the root.
pub fn sample_file_set_is_found()
    ensures { SampleFileSet }
{}

/// Each sample volume has a root that lists A and B, and both files: entries and bodies without a fault. B is in a spared
/// packet where there is one.
pub fn sample_files_are_read()
    ensures { HaveSampleFiles }
{}
