//! A law of the machine's files, the contract of a function that does nothing.

ghost use Rattle.std.specs.Prelude.{ℕ, List};
ghost use Rattle.udfs_host_fs.specs.Identities.{HaveOne};
ghost use Rattle.udfs_host_fs.specs.Told.{NameOneFile, identity_by};

use udfs_calls::Calls;

/// By their numbers, two paths without links lead to one file exactly where they are names of one file, as far as the calls tell.
pub fn numbers_are_of_one_file<C: Calls>(calls: &C)
    ensures one { C.tells → (p q : List ℕ) → HaveOne (identity_by (C.log calls.now) (C.identity calls.now) p) (identity_by (C.log calls.now) (C.identity calls.now) q) → NameOneFile (C.log calls.now) p q }
    ensures same { C.tells → (p q : List ℕ) → NameOneFile (C.log calls.now) p q → HaveOne (identity_by (C.log calls.now) (C.identity calls.now) p) (identity_by (C.log calls.now) (C.identity calls.now) q) }
{}
