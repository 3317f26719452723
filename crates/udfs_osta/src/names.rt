//! Names in compressed Unicode.

ghost use Rattle.std.specs.List.{All};
ghost use Rattle.std.specs.Prelude.{◌≡◌, ℕ, ◌<◌, ◌^◌, ◌++◌, ◌∷◌, List, length, OnOk, OnErr, IfOk, IsOk};
ghost use Rattle.std.specs.String.{string_bytes};
ghost use Rattle.udfs_osta.specs.Texts.{AppendsPart};
ghost use Rattle.udfs_osta.specs.Names.{fault_of, pair_units, units_of, AreUnits, IsName};
ghost use Rattle.udfs_osta.specs.Parts.{IsPathPart};

use crate::escapes::{is_dots, write_escapes, write_units};
use crate::pieces::EscapedBytes;
use crate::texts::OutOfMemory;
use std::alloc::{AllocError, Global};
use std::error::Error;
use std::fmt;
use std::marker::Model;

/// Why bytes are no name (OSTA UDF 2.1.1). Of several faults the first on the way through the bytes is reported.
#[derive(Clone, Copy, Debug, PartialEq, Eq)]
pub enum NameFault {
    /// There is no byte at all, or none after the first.
    Empty = 1,
    /// The first byte is neither 8 nor 16.
    Compression = 2,
    /// After a first byte of 16 comes an odd number of bytes.
    Odd = 3,
    /// The bytes are a name, but memory ran out for its units.
    OutOfMemory = 4,
}

impl fmt::Display for NameFault {
    fn fmt<W: fmt::Write>(&self, f: &mut fmt::Formatter<W>) -> fmt::Result {
        match self {
            NameFault::Empty => write!(f, "the name has no unit"),
            NameFault::Compression => write!(f, "the name begins with neither 8 nor 16"),
            NameFault::Odd => write!(f, "the name ends inside a unit"),
            NameFault::OutOfMemory => write!(f, "out of memory"),
        }
    }
}

impl Error for NameFault {}

/// A name, as its units: numbers of 16 bits, read as UTF-16 where they are that (OSTA UDF 2.1.1). There is at least one.
#[derive(Debug, Drop)]
pub struct Name {
    units: Vec<u16>,
}

impl Model for Name {
    ghost Value = { List ℕ };

    ghost view = { λ n. n.units.items };

    ghost invariant = { λ n. IsName n.units.items };
}

/// A copy has the same units. It fails with `AllocError` where memory ran out.
impl Clone for Name {
    ghost is_clone = { λ name copy. copy ≡ name };

    fn clone(&self) -> Result<Name, AllocError> {
        let units = self.units.clone()?;
        Ok(Name { units })
    }
}

impl Name {
    ghost use Rattle.udfs_osta.specs.Names.{GivesUnits};
    ghost use Rattle.udfs_osta.specs.Escapes.{escaped};

    /// Reads a name: a first byte of 8, and then one byte a unit, or of 16, and then two bytes a unit, the high byte
    /// first (OSTA UDF 2.1.1).
    ///
    /// # Errors
    ///
    /// The first fault in this order: no byte at all is [`NameFault::Empty`], another first byte
    /// [`NameFault::Compression`], nothing after it [`NameFault::Empty`], and an odd number of bytes after 16
    /// [`NameFault::Odd`]. [`NameFault::OutOfMemory`] comes only where the bytes have none of these.
    pub fn read(alloc: Global, bytes: &[u8]) -> Result<Name, NameFault>
        ensures value { GivesUnits result (units_of bytes.now) }
        ensures name { IfOk result (λ name. IsName name) }
        ensures fault { (fault : NameFault) → units_of bytes.now ≡ Err fault → result ≡ Err fault }
        ensures memory { result ≡ Err NameFault.OutOfMemory → IsOk (units_of bytes.now) }
    {
        let Some((kind, rest)) = bytes.split_first() else {
            return Err(NameFault::Empty);
        };
        if *kind != 8 && *kind != 16 {
            return Err(NameFault::Compression);
        }
        if rest.is_empty() {
            return Err(NameFault::Empty);
        }
        if *kind == 16 && rest.len() % 2 == 1 {
            return Err(NameFault::Odd);
        }
        let units = if *kind == 8 {
            single_units(alloc, rest)
        } else {
            double_units(alloc, rest)
        };
        match units {
            Ok(units) => Ok(Name { units }),
            Err(_) => Err(NameFault::OutOfMemory),
        }
    }

    /// The fault that [`Name::read`] would report of the bytes of the first piece and then the second, out of memory apart,
    /// or `None` where they are a name. It allocates no memory.
    pub fn fault(first: &[u8], second: &[u8]) -> Option<NameFault>
        ensures { result ≡ fault_of (units_of (first.now ++ second.now)) }
    {
        if let Some((kind, rest)) = first.split_first() {
            return fault_behind(*kind, rest.len() + second.len());
        }
        match second.split_first() {
            Some((kind, rest)) => fault_behind(*kind, rest.len()),
            None => Some(NameFault::Empty),
        }
    }

    /// The units. It takes no memory.
    pub fn units(&self) -> &[u16]
        ensures value { result.now ≡ self.now }
        ensures name { IsName self.now }
    {
        self.units.as_slice()
    }

    /// Appends the name in UTF-8, surrogate pairs joined, with `\uXXXX` (four upper-case hexadecimal digits) for each
    /// unit below 20 hexadecimal, for 7F, `/`, `\` and each surrogate without a partner, and for every dot of the
    /// names `.` and `..`.
    ///
    /// # Errors
    ///
    /// `OutOfMemory` where memory ran out. Then a beginning of that text is appended.
    pub fn write_escaped(&self, text: &mut String) -> Result<(), OutOfMemory>
        ensures ok { OnOk result (string_bytes text.new ≡ string_bytes text.old ++ escaped self.now) }
        ensures err { OnErr result (AppendsPart (string_bytes text.old) (string_bytes text.new) (escaped self.now)) }

        // The text is a valid part of a path, and no other name has it.
        ensures part { IsPathPart (escaped self.now) }
        ensures alone { (other : List ℕ) → AreUnits other → escaped other ≡ escaped self.now → other ≡ self.now }
    {
        let units = self.units();
        if is_dots(units) {
            write_escapes(units, text)
        } else {
            write_units(units, text)
        }
    }

    /// The bytes of the escaped form, as [`Name::write_escaped`] appends them. It takes no memory.
    pub fn escaped_bytes(&self) -> EscapedBytes<'_>
        ensures { result ≡ escaped self.now }
    {
        let units = self.units();
        EscapedBytes::new(units, is_dots(units))
    }
}

/// Returns why a name with the first byte `kind` and `count` more bytes is invalid, or `None` where it is valid.
fn fault_behind(kind: u8, count: usize) -> Option<NameFault>
    ensures { (rest : List ℕ) → length rest ≡ count → result ≡ fault_of (units_of (kind ∷ rest)) }
{
    if kind != 8 && kind != 16 {
        return Some(NameFault::Compression);
    }
    if count == 0 {
        return Some(NameFault::Empty);
    }
    if kind == 16 && count % 2 == 1 {
        return Some(NameFault::Odd);
    }
    None
}

/// Each byte as a unit. Memory is taken once, for all of them.
fn single_units(alloc: Global, bytes: &[u8]) -> Result<Vec<u16>, AllocError>
    ensures { IfOk result (λ units. units.items ≡ bytes.now) }
{
    let mut units = Vec::with_capacity(alloc, bytes.len())?;
    for byte in bytes {
        units.push_reserved(u16::from(*byte));
    }
    Ok(units)
}

/// Each two bytes as a unit, the high byte first. Memory is taken once, for all of them.
fn double_units(alloc: Global, bytes: &[u8]) -> Result<Vec<u16>, AllocError>
    ensures { IfOk result (λ units. units.items ≡ pair_units bytes.now) }
{
    let mut units = Vec::with_capacity(alloc, bytes.len() / 2)?;
    let mut rest = bytes;
    while rest.len() >= 2 {
        let (pair, others) = rest.split_at(2);
        units.push_reserved(u16::from(pair[0]) * 256 + u16::from(pair[1]));
        rest = others;
    }
    Ok(units)
}

/// The units of a name that bytes give are some, and numbers of 16 bits. This is a law about the form; the call does nothing.
pub fn units_make_names()
    ensures { (bytes units : List ℕ) → All (λ b. b < 2 ^ 8) bytes → units_of bytes ≡ Ok units → IsName units }
{}
