//! What one case of a script is run on, and what came of it.

use crate::discs::volume;
use crate::names::names_of;
use crate::runs::{Outcome, Program, ran, store_table};
use crate::texts::{Name, block_of, blocks_of, byte_of, bytes_of, first_word, short_of, text_of};
use std::alloc::{AllocError, Global};
use udfs_lattice::BlockTable;
use udfs_memory::Memory;
use udfs_samples::Disc;

/// What a case has so far.
#[derive(Drop)]
pub struct Trial {
    pub alloc: Global,
    pub memory: Memory,
    pub names: Vec<Name>,
    /// The disc, once one is spoken of.
    pub disc: Option<Disc>,
    /// What is known of it, until it is a file.
    pub table: Option<BlockTable>,
    /// What the last run came to.
    pub ran: Option<Outcome>,
    /// How many calls had changed files before it, and how many files there were.
    pub calls: u64,
    pub files: usize,
}

impl Trial {
    /// Nothing yet.
    pub fn new(alloc: Global) -> Trial {
        Trial {
            alloc,
            memory: Memory::new(alloc),
            names: Vec::new(alloc),
            disc: None,
            table: None,
            ran: None,
            calls: 0,
            files: 0,
        }
    }

    /// The bytes of a text.
    pub fn bytes(&self, text: &str) -> Result<Vec<u8>, AllocError> {
        bytes_of(self.alloc, self.names.as_slice(), text)
    }

    /// The text itself.
    pub fn text(&self, text: &str) -> Result<String, AllocError> {
        text_of(self.alloc, self.names.as_slice(), text)
    }

    /// Gives a name to the bytes of a text.
    pub fn name(&mut self, word: &str, text: &str) -> Result<(), AllocError> {
        let bytes = self.bytes(text)?;
        let word = String::from_str(self.alloc, word)?;
        Ok(self.names.push(Name { word, bytes })?)
    }

    /// Stores the table's file if there is a table, and runs the program with these arguments, separated by spaces.
    pub fn run<P: Program>(&mut self, program: &P, words: &str) -> Result<(), AllocError> {
        if let Some(table) = self.table.take() {
            store_table(self.alloc, &mut self.memory, &table)?;
        }
        self.calls = self.memory.calls();
        self.files = self.memory.count();
        let words = self.text(words)?;
        self.ran = Some(ran(self.alloc, program, &mut self.memory, words.as_str())?);
        Ok(())
    }

    /// The status of the last run and what it printed on standard output, as one text.
    pub fn printed(&self) -> Result<String, AllocError> {
        match &self.ran {
            Some(ran) => {
                let out = ran.out.as_str();
                format!(in self.alloc; "{}\n{out}", ran.status)
            }
            None => Err(AllocError),
        }
    }

    /// The disc, which is the one with one map where none was spoken of.
    fn disc(&mut self) -> Result<&mut Disc, AllocError> {
        if self.disc.is_none() {
            self.disc = Some(Disc::type1(self.alloc)?);
        }
        match &mut self.disc {
            Some(disc) => Ok(disc),
            None => Err(AllocError),
        }
    }

    /// Takes a volume.
    pub fn take_volume(&mut self, line: &str) -> Result<(), AllocError> {
        self.disc = Some(volume(self.alloc, line)?);
        Ok(())
    }

    /// Changes the disc by a line `write BLOCK AT TEXT`, `tag BLOCK IDENTIFIER LOCATION`, `fill BLOCK BYTE` or `directory BLOCK NAMES`.
    pub fn change_disc(&mut self, word: &str, line: &str) -> Result<(), AllocError> {
        let (block, rest) = first_word(line);
        let block = block_of(block)?;
        match word {
            "write" => {
                let (at, text) = first_word(rest);
                let bytes = self.bytes(text)?;
                self.disc()?
                    .write_at(block, block_of(at)? as usize, bytes.as_slice())
            }
            "tag" => {
                let (identifier, location) = first_word(rest);
                let identifier = short_of(identifier)?;
                self.disc()?
                    .write_tag(block, 0, identifier, block_of(location)?)
            }
            "fill" => self.disc()?.fill(block, byte_of(rest)?),
            _ => {
                let names = names_of(self.alloc, rest)?;
                self.disc()?.write_directory(272, block, names.as_slice())
            }
        }
    }

    /// All blocks but these are known, or these alone.
    pub fn know(&mut self, is_all: bool, line: &str) -> Result<(), AllocError> {
        let alloc = self.alloc;
        let blocks = blocks_of(alloc, line)?;
        let disc = self.disc()?;
        let table = if is_all {
            disc.known_but(alloc, blocks.as_slice())
        } else {
            disc.known_at(alloc, blocks.as_slice())
        };
        match table {
            Ok(table) => {
                self.table = Some(table);
                Ok(())
            }
            Err(_) => Err(AllocError),
        }
    }

    /// A block is read a second time, all of this byte.
    pub fn dispute(&mut self, line: &str) -> Result<(), AllocError> {
        let (block, byte) = first_word(line);
        let block = block_of(block)?;
        let bytes = [byte_of(byte)?; 2048];
        match &mut self.table {
            Some(table) => table.put(block, &bytes).map_err(|_| AllocError),
            None => Err(AllocError),
        }
    }
}
