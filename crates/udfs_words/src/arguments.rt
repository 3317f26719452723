//! The arguments that commands take.

ghost use Rattle.std.specs.Prelude.{◌≡◌, ◌∷◌, ◌++◌, [], false, IfOk, codes};
ghost use Rattle.clap.specs.Words.{rule_of};
ghost use Rattle.udfs_words.specs.Grammar.{blocks_rule, flag_rule, group_rule, inputs_rule, last_rule, letter_rule, lost_rule, manifest_rule, mapfile_rule, null_rule, only_rule, option_rule, out_rule, pairs_rule, profile_rule, size_of_rule, size_rule, title_rule, unnamed_rule, value_rule};

use crate::words::{
    BLOCKS, FORCE, GROUP, INPUTS, LAST, LOST, MANIFEST, MAPFILE, NULL, ONLY, OUT, PAIRS, PROFILE,
    QUIET, SIZE, SIZE_OF, TITLE, TO, UNNAMED, VERBOSE,
};
use clap::{Arg, ArgAction, value_parser};
use std::alloc::{AllocError, Global};

/// The flag for saying more.
pub fn verbose<'a>(alloc: Global) -> Arg<'a>
    ensures { (rule_of result ≡ letter_rule (codes "verbose") 118) × (result.global ≡ false) }
{
    flag(alloc, VERBOSE, "Also print the reason, and what to do next").short('v')
}

/// The flag for saying no more than has to be said.
pub fn quiet<'a>(alloc: Global) -> Arg<'a>
    ensures { (rule_of result ≡ letter_rule (codes "quiet") 113) × (result.global ≡ false) }
{
    flag(alloc, QUIET, "Print only an error's first line").short('q')
}

/// A flag of this name.
pub fn flag<'a>(alloc: Global, name: &'a str, help: &'a str) -> Arg<'a>
    ensures { (rule_of result ≡ flag_rule name.now) × (result.global ≡ false) }
{
    Arg::new(alloc, name)
        .long(name)
        .help(help)
        .action(ArgAction::SetTrue)
}

/// The flag for joining what is of another disc, and for writing over a file that is no table file and no input.
pub fn force<'a>(alloc: Global) -> Arg<'a>
    ensures { (rule_of result ≡ flag_rule (codes "force")) × (result.global ≡ false) }
{
    flag(
        alloc,
        FORCE,
        "Overwrite any file that is not an input,{n}and join an image of another disc",
    )
}

/// The flag for joining what is of another disc.
pub fn joining<'a>(alloc: Global) -> Arg<'a>
    ensures { (rule_of result ≡ flag_rule (codes "force")) × (result.global ≡ false) }
{
    flag(alloc, FORCE, "Join an image even if it is of another disc")
}

/// An option with one value, for which the usage shows `value`.
fn option<'a>(
    alloc: Global,
    name: &'a str,
    value: &'a str,
    help: &'a str,
    required: bool,
) -> Arg<'a>
    ensures { (rule_of result ≡ option_rule name.now required) × (result.global ≡ false) }
{
    Arg::new(alloc, name)
        .long(name)
        .value_name(value)
        .help(help)
        .required(required)
        .action(ArgAction::Set)
}

/// An argument that is taken by another long name too, which the help leaves out.
fn also<'a>(arg: Arg<'a>, name: &'a str) -> Result<Arg<'a>, AllocError>
    ensures { IfOk result (λ more. (rule_of more ≡ record (rule_of arg.entry) { aliases = (rule_of arg.entry).aliases ++ name.now ∷ [] }) × (more.global ≡ arg.entry.global)) }
{
    arg.alias(name)
}

/// The file to write, with the letter `o`, and also as `--output`.
fn output<'a>(alloc: Global, value: &'a str, help: &'a str) -> Result<Arg<'a>, AllocError>
    ensures { IfOk result (λ arg. (rule_of arg ≡ out_rule) × (arg.global ≡ false)) }
{
    also(option(alloc, OUT, value, help, true).short('o'), "output")
}

/// The flag for lines that end with a zero byte.
pub fn null<'a>(alloc: Global) -> Arg<'a>
    ensures { (rule_of result ≡ null_rule) × (result.global ≡ false) }
{
    flag(alloc, NULL, "End lines with a zero byte").short('0')
}

/// The rules by which the volume is read.
pub fn profile<'a>(alloc: Global) -> Arg<'a>
    ensures { (rule_of result ≡ profile_rule) × (result.global ≡ false) }
{
    option(
        alloc,
        PROFILE,
        "PROFILE",
        "Rules to read by: strict (default) or wide",
        false,
    )
}

/// The mapfile to write, which ddrescue takes as its domain: also `--domain`.
pub fn domain<'a>(alloc: Global) -> Result<Arg<'a>, AllocError>
    ensures { IfOk result (λ arg. (rule_of arg ≡ mapfile_rule) × (arg.global ≡ false)) }
{
    also(
        option(
            alloc,
            MAPFILE,
            "FILE",
            "Write the blocks as a mapfile for ddrescue{n}-m, and print how many there are",
            false,
        ),
        "domain",
    )
}

/// The size of the groups of blocks in the mapfile.
pub fn group<'a>(alloc: Global) -> Arg<'a>
    ensures { (rule_of result ≡ group_rule) × (result.global ≡ false) }
{
    option(
        alloc,
        GROUP,
        "G",
        "Extend the mapfile to whole groups of G{n}blocks: 16 on a DVD, 32 on a CD-RW",
        false,
    )
}

/// Lists of blocks, of which there is at least one where no conflicts are to be forgotten.
pub fn blocks<'a>(alloc: Global, conflicts: bool) -> Arg<'a>
    ensures { (rule_of result ≡ blocks_rule conflicts) × (result.global ≡ false) }
{
    option(
        alloc,
        BLOCKS,
        "LIST",
        "Forget the blocks in this list: one number{n}per line; - is standard input",
        !conflicts,
    )
    .action(ArgAction::Append)
}

/// The table file to write.
pub fn table_file<'a>(alloc: Global) -> Result<Arg<'a>, AllocError>
    ensures { IfOk result (λ arg. (rule_of arg ≡ out_rule) × (arg.global ≡ false)) }
{
    output(alloc, "FILE", "The table file to write or replace")
}

/// The page to write.
pub fn page_file<'a>(alloc: Global) -> Result<Arg<'a>, AllocError>
    ensures { IfOk result (λ arg. (rule_of arg ≡ out_rule) × (arg.global ≡ false)) }
{
    output(alloc, "FILE", "The page to write; - is standard output")
}

/// What the page is called.
pub fn title<'a>(alloc: Global) -> Arg<'a>
    ensures { (rule_of result ≡ title_rule) × (result.global ≡ false) }
{
    option(
        alloc,
        TITLE,
        "TEXT",
        "A name for the page, such as a shelf mark",
        false,
    )
}

/// The image to write.
pub fn image_file<'a>(alloc: Global) -> Result<Arg<'a>, AllocError>
    ensures { IfOk result (λ arg. (rule_of arg ≡ out_rule) × (arg.global ≡ false)) }
{
    output(
        alloc,
        "IMAGE",
        "The image to write, with zeros for blocks{n}that are not known",
    )
}

/// The image's mapfile to write.
pub fn image_map<'a>(alloc: Global) -> Arg<'a>
    ensures { (rule_of result ≡ value_rule (codes "mapfile")) × (result.global ≡ false) }
{
    option(
        alloc,
        MAPFILE,
        "MAPFILE",
        "Its mapfile: + known, - conflict, ? unknown",
        true,
    )
}

/// The folder to make.
pub fn folder<'a>(alloc: Global) -> Arg<'a>
    ensures { (rule_of result ≡ value_rule (codes "to")) × (result.global ≡ false) }
{
    option(
        alloc,
        TO,
        "DIR",
        "A new folder to write the files into",
        true,
    )
}

/// Paths of nodes that alone are asked for.
pub fn only<'a>(alloc: Global, help: &'a str) -> Arg<'a>
    ensures { (rule_of result ≡ only_rule) × (result.global ≡ false) }
{
    option(alloc, ONLY, "PATH", help, false).action(ArgAction::Append)
}

/// The manifest to write.
pub fn manifest<'a>(alloc: Global) -> Arg<'a>
    ensures { (rule_of result ≡ manifest_rule) × (result.global ≡ false) }
{
    option(
        alloc,
        MANIFEST,
        "FILE",
        "Also write a manifest, for sha256sum -c in{n}the new folder",
        false,
    )
}

/// The folder for lost files.
pub fn lost_folder<'a>(alloc: Global) -> Arg<'a>
    ensures { (rule_of result ≡ unnamed_rule) × (result.global ≡ false) }
{
    option(
        alloc,
        UNNAMED,
        "DIR",
        "Also write whole files that have no name{n}into this new folder, by block number",
        false,
    )
}

/// The folder for lost folders and lost files.
pub fn lost_trees<'a>(alloc: Global) -> Arg<'a>
    ensures { (rule_of result ≡ lost_rule) × (result.global ≡ false) }
{
    option(
        alloc,
        LOST,
        "DIR",
        "Also write lost folders, with the names in{n}them, and lost files, into this new folder",
        false,
    )
}

/// The volume's last block, which may have to be given.
pub fn last<'a>(alloc: Global, needed: bool) -> Arg<'a>
    ensures { (rule_of result ≡ last_rule needed) × (result.global ≡ false) }
{
    option(
        alloc,
        LAST,
        "N",
        "The number of the volume's last block",
        needed,
    )
    .value_parser(value_parser!(u32))
}

/// The disc's size.
pub fn disc_size<'a>(alloc: Global) -> Arg<'a>
    ensures { (rule_of result ≡ size_rule) × (result.global ≡ false) }
{
    option(
        alloc,
        SIZE,
        "BYTES",
        "The disc's size in bytes, instead of --last{n}(or with s for blocks, k, M, G, Ki, Mi, Gi)",
        false,
    )
}

/// The mapfile to take the disc's size from.
pub fn size_map<'a>(alloc: Global) -> Arg<'a>
    ensures { (rule_of result ≡ size_of_rule) × (result.global ≡ false) }
{
    option(
        alloc,
        SIZE_OF,
        "MAPFILE",
        "Take the size from this ddrescue mapfile",
        false,
    )
}

/// Images with their mapfiles.
pub fn pair_inputs<'a>(alloc: Global) -> Arg<'a>
    ensures { (rule_of result ≡ pairs_rule) × (result.global ≡ false) }
{
    Arg::new(alloc, PAIRS)
        .long("ddrescue")
        .value_names(&["IMAGE", "MAPFILE"])
        .help("An image with its GNU ddrescue mapfile")
        .num_args(2)
        .action(ArgAction::Append)
}

/// The inputs, of which there is at least one, or a pair.
pub fn inputs<'a>(alloc: Global, pairs: bool) -> Arg<'a>
    ensures { (rule_of result ≡ inputs_rule pairs) × (result.global ≡ false) }
{
    Arg::new(alloc, INPUTS)
        .value_name("IN")
        .help("The readings and table files to join")
        .required(!pairs)
        .num_args(1..)
        .action(ArgAction::Append)
}
