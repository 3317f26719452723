//! A list of blocks: decimal numbers, one a line.

ghost use Rattle.std.specs.Prelude.{◌≡◌, ◌≢◌, ◌↔◌, ◌≤◌, ◌<◌, ◌==◌, ◌+◌, min, ℕ, Option, None, Some, All, List, [], ◌∷◌, ◌++◌, Result, OnOk, IfOk, IfErr, IfSome, IsErrOf};
ghost use Rattle.udfs_reading.specs.Answers.{HadGiven};
ghost use Rattle.udfs_rescue.specs.Numbers.{digits_from};
ghost use Rattle.udfs_rescue.specs.declared.list.ListError.TheVariants.{Io};
ghost use Rattle.udfs_rescue.specs.BlockLists.{block_number, without_return, list_outcome, number_kept, NoneWrongYet, ReadsList, ParsesList, RefusesList, TellsLineBody, TellsLine, StandsList, TakesLine, RefusesLine, GivesList};

use crate::number::digit;
use std::alloc::Global;
use std::marker::Model;
use thiserror::Error;
use udfs_reading::Source;

/// Why a list of blocks was not read.
#[derive(Clone, Copy, Debug, PartialEq, Eq, Error)]
pub enum ListError {
    /// This line is no block number. Lines count from 1, modulo 2^64.
    #[error("list line {0}: not a block number")]
    Line(u64),
    /// The device failed.
    #[error("the device failed")]
    Io,
    /// There is no memory for another number.
    #[error("out of memory")]
    OutOfMemory,
}

/// `n` if it is the number of a block, at most 4,194,303; otherwise 4,194,304.
fn at_most(n: u64) -> u32
    ensures { result ≡ min n 4194304 }
{
    if n < 4_194_304 { n as u32 } else { 4_194_304 }
}

/// The number with one more digit appended, at most 4,194,304; `None` if there was no number or the byte is no digit.
fn with_digit(number: Option<u32>, byte: u8) -> Option<u32>
    ensures { (line : List ℕ) → number ≡ number_kept (digits_from 10 0 line) → result ≡ number_kept (digits_from 10 0 (line ++ byte ∷ [])) }
{
    let Some(number) = number else {
        return None;
    };
    let digit = digit(byte);
    if digit >= 10 {
        return None;
    }
    Some(at_most(u64::from(number) * 10 + u64::from(digit)))
}

/// A line so far: whether it has no byte, its number, and whether it ends with a CR, which is then not yet counted in.
#[derive(Drop)]
struct ListLine {
    empty: bool,
    number: Option<u32>,
    returned: bool,
}

impl ListLine {
    /// Before the first byte.
    fn new() -> ListLine
        ensures { TellsLine result.empty result.number result.returned [] }
    {
        ListLine {
            empty: true,
            number: Some(0),
            returned: false,
        }
    }

    /// A CR that no LF follows is a byte of the line.
    fn count_return(&mut self)
        ensures { (line : List ℕ) → TellsLine self.old.empty self.old.number self.old.returned line → TellsLineBody self.new.empty self.new.number line }
    {
        if self.returned {
            self.empty = false;
            self.number = None;
        }
    }

    /// Takes one more byte.
    fn take(&mut self, byte: u8)
        ensures { (line : List ℕ) → TellsLine self.old.empty self.old.number self.old.returned line → TellsLine self.new.empty self.new.number self.new.returned (line ++ byte ∷ []) }
    {
        self.count_return();
        if byte == b'\r' {
            self.returned = true;
            return;
        }
        self.empty = false;
        self.number = with_digit(self.number, byte);
        self.returned = false;
    }

    /// The block that the line names, without a CR at its end.
    fn block(&self) -> Option<u32>
        ensures { (body : List ℕ) → TellsLineBody self.now.empty self.now.number body → result ≡ block_number body }
    {
        if self.empty {
            return None;
        }
        match self.number {
            Some(number) => {
                if number > 4_194_303 {
                    None
                } else {
                    Some(number)
                }
            }
            None => None,
        }
    }
}

/// What has come of a list.
#[derive(Drop)]
pub struct ListReader {
    line: ListLine,
    at: u64,
    numbers: Vec<u32>,
}

impl ListReader {
    fn new(alloc: Global) -> ListReader
        ensures { StandsList result list_outcome }
    {
        ListReader {
            line: ListLine::new(),
            at: 1,
            numbers: Vec::new(alloc),
        }
    }

    /// Takes the line that an LF ends.
    fn end_line(&mut self) -> Result<(), ListError>
        ensures ok { OnOk result (TakesLine self.old self.new) }
        ensures err { IfErr result (λ e. RefusesLine self.old e) }
    {
        let Some(block) = self.line.block() else {
            return Err(ListError::Line(self.at));
        };
        match self.numbers.push(block) {
            Ok(()) => {}
            Err(_) => return Err(ListError::OutOfMemory),
        }
        self.line = ListLine::new();
        self.at = self.at.wrapping_add(1);
        Ok(())
    }

    /// Takes one byte. An error ends it all.
    fn take(&mut self, byte: u8) -> Result<(), ListError>
        ensures ok { OnOk result ((says : List ℕ → Result (List ℕ) ℕ) → StandsList self.old says → StandsList self.new (λ rest. says (byte ∷ rest))) }
        ensures err { IfErr result (λ e. (says : List ℕ → Result (List ℕ) ℕ) → StandsList self.old says → (rest : List ℕ) → RefusesList e (says (byte ∷ rest))) }
    {
        if byte == b'\n' {
            return self.end_line();
        }
        self.line.take(byte);
        Ok(())
    }

    /// Takes the next piece. An error ends it all.
    fn feed(&mut self, piece: &[u8]) -> Result<(), ListError>
        ensures ok { OnOk result ((says : List ℕ → Result (List ℕ) ℕ) → StandsList self.old says → StandsList self.new (λ rest. says (piece.now ++ rest))) }
        ensures err { IfErr result (λ e. (says : List ℕ → Result (List ℕ) ℕ) → StandsList self.old says → (rest : List ℕ) → RefusesList e (says (piece.now ++ rest))) }
    {
        for byte in piece {
            match self.take(*byte) {
                Ok(()) => {}
                Err(e) => return Err(e),
            }
        }
        Ok(())
    }

    /// The numbers, where no byte follows.
    fn finish(mut self) -> Result<BlockList, ListError>
        ensures { (says : List ℕ → Result (List ℕ) ℕ) → StandsList self says → ParsesList result (says []) }
    {
        self.line.count_return();
        if self.line.empty {
            return Ok(BlockList {
                numbers: self.numbers,
            });
        }
        let Some(block) = self.line.block() else {
            return Err(ListError::Line(self.at));
        };
        match self.numbers.push(block) {
            Ok(()) => {}
            Err(_) => return Err(ListError::OutOfMemory),
        }
        Ok(BlockList {
            numbers: self.numbers,
        })
    }
}

/// Reads to the end of the source.
fn read_numbers<R: Source>(alloc: Global, source: &mut R) -> Result<BlockList, ListError>
    ensures { GivesList (R.remaining source.old) (R.remaining source.new) (R.faults source.old) (R.faults source.new) result }
{
    let mut reader = ListReader::new(alloc);
    let mut piece = [0u8; 4096];
    for _ in 0..u64::MAX {
        let n = match source.read(&mut piece) {
            Ok(n) => n,
            Err(_) => return Err(ListError::Io),
        };
        if n == 0 {
            return reader.finish();
        }
        match reader.feed(&piece[..n]) {
            Ok(()) => {}
            Err(e) => return Err(e),
        }
    }
    Err(ListError::OutOfMemory)
}

/// The numbers of a list of blocks, in its order.
#[derive(Drop)]
pub struct BlockList {
    numbers: Vec<u32>,
}

impl Model for BlockList {
    ghost use Rattle.std.specs.Prelude.{List, ℕ};

    ghost Value = { List ℕ };

    ghost view = { λ l. l.numbers.items };
}

impl BlockList {
    /// Reads a list of blocks to the end of the source: decimal numbers up to 4,194,303, one a line. A line ends with LF or
    /// CR LF; the last one may end with the source instead. No line needs to follow the last LF, and an empty source has no
    /// numbers. Numbers may come in any order and several times, and may begin with zeros. A number takes 4 bytes, and at most
    /// three times that while the list grows.
    ///
    /// # Errors
    ///
    /// `Line` with the first line that is not such a number. `Io` if and only if the source failed; the complete lines that
    /// it had given have no fault then. `OutOfMemory` if there is no memory for another number, or if the source has not
    /// ended after 2^64 - 1 reads. After an error the source is read no further.
    pub fn read<R: Source>(alloc: Global, source: &mut R) -> Result<BlockList, ListError>
        // The numbers, or the first fault, are those of the bytes.
        ensures outcome { IfSome (R.remaining source.old) (λ bytes. ReadsList result (list_outcome bytes)) }
        // It is the source that failed exactly where its count changed.
        ensures io { IsErrOf result Io ↔ (R.faults source.new ≢ R.faults source.old) }
        ensures kept { ¬ IsErrOf result Io → R.faults source.new ≡ R.faults source.old }
        // Then the bytes that it had given have no fault, unless in the line that they end in.
        ensures cut { IfErr result (λ e. e ≡ Io → HadGiven (R.remaining source.old) (R.remaining source.new) NoneWrongYet) }
    {
        let outcome = read_numbers(alloc, source);
        outcome
    }

    /// The numbers, in the list's order.
    pub fn numbers(&self) -> &[u32]
        ensures { result.now ≡ self.now }
    {
        &self.numbers
    }
}
