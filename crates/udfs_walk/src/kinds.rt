//! What an entry is by the rules by which its volume is read.

ghost use Rattle.std.specs.Prelude.{◌≡◌};
ghost use Rattle.udfs_walk.specs.Kinds.{kind_by};

use udfs_file::Kind;
use udfs_volume::Profile;

/// The kind that is told of an entry. By the wide rules the file types 0 ("not specified", as old writers left it) and 249 (a
/// real-time file, as a camcorder records its movie, UDF 2.01 2.3.5.2) are files (ECMA-167 4/14.6.6).
pub(crate) fn kind_by(profile: Profile, kind: Kind) -> Kind
    ensures { result ≡ kind_by profile kind }
{
    match kind {
        Kind::Other(file_type) if profile.is_file_type(file_type) => Kind::File,
        _ => kind,
    }
}
