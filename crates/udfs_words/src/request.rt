//! What the program is asked to do, as a value: a command, and what it is given. A path that was given as `-` to a command that takes standard input so is
//! already that of standard input.

use crate::forms::{Form, Version};
use crate::group::GroupSize;
use crate::input_path::InputPath;
use udfs_volume::Profile;

/// The inputs of a command.
#[derive(Drop)]
pub struct Inputs<'a> {
    /// All of them: files, and then images with their mapfiles.
    pub paths: Vec<InputPath<'a>>,
    /// The paths of those that are files.
    pub files: Vec<&'a str>,
    /// The paths of the images and the mapfiles, in turn.
    pub parts: Vec<&'a str>,
}

/// Where a disc ends.
#[derive(Clone, Copy, Debug, PartialEq, Eq)]
pub enum LastSource<'a> {
    /// With the block of this number.
    Block(u32),
    /// Where the mapfile of this path ends.
    OfMap(&'a str),
    /// Where the mapfiles of all inputs end.
    OfMaps,
}

/// A volume to look into.
#[derive(Drop)]
pub struct VolumeSource<'a> {
    /// What was read of its disc.
    pub inputs: Inputs<'a>,
    /// Where the disc ends.
    pub last: LastSource<'a>,
    /// The rules by which the volume is read.
    pub profile: Profile,
    /// Images that are of another disc by their blocks are to be joined all the same.
    pub force: bool,
}

/// The inputs are to be joined into one table file.
#[derive(Drop)]
pub struct MergeRequest<'a> {
    pub inputs: Inputs<'a>,
    /// The version of the table file.
    pub version: Version,
    /// The path of the table file.
    pub out: &'a str,
    /// A file that is no table file and no input may be written over, and images of another disc are to be joined all the same.
    pub force: bool,
}

/// The table of the inputs is to forget blocks.
#[derive(Drop)]
pub struct ForgetRequest<'a> {
    pub inputs: Inputs<'a>,
    /// Blocks in conflict are to be forgotten.
    pub conflicts: bool,
    /// The paths of the lists of blocks.
    pub lists: Vec<&'a str>,
    /// The path of the table file.
    pub out: &'a str,
    /// A file that is no table file and no input may be written over, and images of another disc are to be joined all the same.
    pub force: bool,
}

/// What is known of the disc is to be written as an image with its mapfile.
#[derive(Drop)]
pub struct ImageRequest<'a> {
    pub inputs: Inputs<'a>,
    /// Where the disc ends.
    pub last: LastSource<'a>,
    /// The path of the image.
    pub image: &'a str,
    /// The path of the mapfile.
    pub mapfile: &'a str,
    /// An image or a mapfile that is no input may be written over, and images of another disc are to be joined all the same.
    pub force: bool,
}

/// The report of a volume is to be printed.
#[derive(Drop)]
pub struct ReportRequest<'a> {
    pub volume: VolumeSource<'a>,
    pub form: Form,
}

/// The blocks that are worth reading again are to be found.
#[derive(Drop)]
pub struct RereadRequest<'a> {
    pub volume: VolumeSource<'a>,
    /// The paths, in the volume, of what they are wanted for, with all that is in it; where there are none, of all.
    pub only: Vec<&'a str>,
    /// The path of the mapfile in which they are to be wanted; where there is none, their numbers are to be printed.
    pub mapfile: Option<&'a str>,
    /// Whole groups of this size are to be wanted in it.
    pub group: Option<GroupSize>,
    /// Known blocks are to be wanted in it too, by which a pass of another disc shows.
    pub witnesses: bool,
}

/// The files and folders of a volume are to be listed, a line for each.
#[derive(Drop)]
pub struct ListRequest<'a> {
    pub volume: VolumeSource<'a>,
    /// What is whole is to be left out.
    pub torn: bool,
    /// Lines are to end with a zero byte.
    pub null: bool,
    /// A line is to have the path alone.
    pub paths: bool,
    /// The first line is to have the columns' names.
    pub header: bool,
    /// A line is to be a JSON object.
    pub json: bool,
    /// Lost folders with all that is in them, and lost files, are to be listed too.
    pub lost: bool,
    /// These are, and what was deleted is one of them.
    pub deleted: bool,
}

/// What a person wants to know of a volume is to be printed.
#[derive(Drop)]
pub struct SummaryRequest<'a> {
    pub volume: VolumeSource<'a>,
    /// The size of the disc as it was given, if it was.
    pub size: Option<&'a str>,
    /// As lines for a person, or as JSON.
    pub form: Form,
}

/// The page of a volume is to be written.
#[derive(Drop)]
pub struct PageRequest<'a> {
    pub volume: VolumeSource<'a>,
    /// The size of the disc as it was given, if it was.
    pub size: Option<&'a str>,
    /// What the page is called, beside the volume's name.
    pub title: Option<&'a str>,
    /// The path of the page.
    pub out: &'a str,
}

/// The files of a volume are to be written into a new folder.
#[derive(Drop)]
pub struct ExtractRequest<'a> {
    pub volume: VolumeSource<'a>,
    /// The path of the new folder.
    pub folder: &'a str,
    /// The paths, in the volume, of what is to be written with all that is in it.
    pub only: Vec<&'a str>,
    /// Torn files are to be written too, with zeros for the bytes that are missing.
    pub fill: bool,
    /// What has a name that is too long is to be written under a short one.
    pub short_names: bool,
    /// Files and folders are to have the times that the volume has for them.
    pub times: bool,
    /// The path of a manifest to write.
    pub manifest: Option<&'a str>,
    /// The path of a new folder for files that have lost their names.
    pub lost: Option<&'a str>,
    /// The path of a new folder for lost folders, with the names in them, and for files that no such folder names.
    pub trees: Option<&'a str>,
    /// What was deleted is one of these.
    pub deleted: bool,
}

/// What the program is asked to do.
#[derive(Drop)]
pub enum Request<'a> {
    Merge(MergeRequest<'a>),
    Forget(ForgetRequest<'a>),
    Image(ImageRequest<'a>),
    Report(ReportRequest<'a>),
    Reread(RereadRequest<'a>),
    List(ListRequest<'a>),
    Summary(SummaryRequest<'a>),
    Page(PageRequest<'a>),
    Extract(ExtractRequest<'a>),
}
