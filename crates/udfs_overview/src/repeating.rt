//! What was given to a command, as the commands that it names repeat it. Each function appends to a text; if memory runs out, a part may be appended.

ghost use Rattle.std.specs.Prelude.{◌≡◌, ◌+◌, ◌/◌, ◌%◌, ◌^◌, ◌<◌, ◌≤◌, ◌++◌, ◌∷◌, [], IfOk, OnOk, flat_map, length, map, option_map};
ghost use Rattle.std.specs.List.{list_all, list_any};
ghost use Rattle.std.specs.String.{string_bytes};
ghost use Rattle.udfs_overview.specs.Repeating.{disc_words, end_words, ends_in, escaped_byte, escaped_word, file_word, force_words, given_now, image_name, inputs_words, is_bare, is_hidden, is_plain, is_taken, mapfile_name, pair_words, pass_number, past_taken, quoted_word, rules_words, shell_path, shell_word};

use std::alloc::Global;
use std::fmt::Write;
use udfs_osta::OutOfMemory;
use udfs_volume::Profile;

/// The arguments by which a disc is read.
#[derive(Clone, Copy)]
pub struct Given<'a> {
    /// The paths of the inputs that are files.
    pub files: &'a [&'a str],
    /// The paths of the images and the mapfiles, in turn.
    pub parts: &'a [&'a str],
    /// The size of the disc as it was given, if it was.
    pub size: Option<&'a str>,
    /// Whether what is of another disc is to be joined.
    pub force: bool,
}

/// Whether a byte means nothing to a shell.
fn is_plain(byte: u8) -> bool
    ensures { result ≡ is_plain byte }
{
    (43 <= byte && byte <= 58)
        || (64 <= byte && byte <= 90)
        || byte == 95
        || (97 <= byte && byte <= 122)
}

/// Whether a word in quotes may not have a byte.
fn is_hidden(byte: u8) -> bool
    ensures { result ≡ is_hidden byte }
{
    byte < 32 || byte == 39 || byte == 127 || byte == 194 || byte == 216 || byte == 226
}

/// Whether a word in quotes may not have one of these bytes.
fn has_hidden(bytes: &[u8]) -> bool
    ensures { result ≡ list_any is_hidden bytes.now }
{
    for byte in bytes {
        if is_hidden(*byte) {
            return true;
        }
    }
    false
}

/// Whether none of these bytes means something to a shell.
fn are_plain(bytes: &[u8]) -> bool
    ensures { result ≡ list_all is_plain bytes.now }
{
    for byte in bytes {
        if !is_plain(*byte) {
            return false;
        }
    }
    true
}

/// Whether a text needs no quotes.
fn is_bare(bytes: &[u8]) -> bool
    ensures { result ≡ is_bare bytes.now }
{
    match bytes {
        [] => false,
        _ => are_plain(bytes),
    }
}

/// A digit.
fn push_digit(text: &mut String, digit: u8) -> Result<(), OutOfMemory>
    requires { digit < 10 }
    ensures { OnOk result (string_bytes text.new ≡ string_bytes text.old ++ (48 + digit) ∷ []) }
{
    text.push((b'0' + digit) as char)
}

/// A byte in octal.
fn push_octal(text: &mut String, byte: u8) -> Result<(), OutOfMemory>
    ensures { OnOk result (string_bytes text.new ≡ string_bytes text.old ++ 92 ∷ (48 + byte / 64) ∷ (48 + byte / 8 % 8) ∷ (48 + byte % 8) ∷ []) }
{
    text.push('\\')?;
    push_digit(text, byte / 64)?;
    push_digit(text, byte / 8 % 8)?;
    push_digit(text, byte % 8)
}

/// A byte behind `$'`.
fn push_escaped_byte(text: &mut String, byte: u8) -> Result<(), OutOfMemory>
    ensures { OnOk result (string_bytes text.new ≡ string_bytes text.old ++ escaped_byte byte) }
{
    if byte == b'\'' || byte == b'\\' {
        text.push('\\')?;
        text.push(byte as char)
    } else if 32 <= byte && byte < 127 {
        text.push(byte as char)
    } else {
        push_octal(text, byte)
    }
}

/// The bytes behind `$'`.
fn push_escaped_bytes(text: &mut String, bytes: &[u8]) -> Result<(), OutOfMemory>
    ensures { OnOk result (string_bytes text.new ≡ string_bytes text.old ++ flat_map escaped_byte bytes.now) }
{
    for byte in bytes {
        push_escaped_byte(text, *byte)?;
    }
    Ok(())
}

/// A word with escapes.
fn push_escaped(text: &mut String, word: &str) -> Result<(), OutOfMemory>
    ensures { OnOk result (string_bytes text.new ≡ string_bytes text.old ++ escaped_word word.now) }
{
    text.push_str("$'")?;
    push_escaped_bytes(text, word.as_bytes())?;
    text.push_str("'")
}

/// A word in quotes.
fn push_quoted(text: &mut String, word: &str) -> Result<(), OutOfMemory>
    ensures { OnOk result (string_bytes text.new ≡ string_bytes text.old ++ quoted_word word.now) }
{
    text.push_str("'")?;
    text.push_str(word)?;
    text.push_str("'")
}

/// Appends a text as one word of a shell, without a character that controls a terminal.
///
/// # Errors
///
/// If memory runs out. Then a part may be appended.
#[tactic(auto, unfolding(crate::specs::Repeating::shell_word))]
pub fn push_shell_word(text: &mut String, word: &str) -> Result<(), OutOfMemory>
    ensures { OnOk result (string_bytes text.new ≡ string_bytes text.old ++ shell_word word.now) }
{
    if has_hidden(word.as_bytes()) {
        push_escaped(text, word)
    } else if is_bare(word.as_bytes()) {
        text.push_str(word)
    } else {
        push_quoted(text, word)
    }
}

/// Appends a path as one word of a shell that is no option.
///
/// # Errors
///
/// If memory runs out. Then a part may be appended.
#[tactic(auto, unfolding(crate::specs::Repeating::shell_path))]
pub fn push_shell_path(text: &mut String, path: &str) -> Result<(), OutOfMemory>
    ensures { OnOk result (string_bytes text.new ≡ string_bytes text.old ++ shell_path path.now) }
{
    if path.as_bytes().starts_with(b"-") {
        text.push_str("./")?;
    }
    push_shell_word(text, path)
}

/// A file, as an argument.
fn push_file(text: &mut String, path: &str) -> Result<(), OutOfMemory>
    ensures { OnOk result (string_bytes text.new ≡ string_bytes text.old ++ file_word path.now) }
{
    text.push_str(" ")?;
    push_shell_path(text, path)
}

/// Files, as arguments.
fn push_files(text: &mut String, paths: &[&str]) -> Result<(), OutOfMemory>
    ensures { OnOk result (string_bytes text.new ≡ string_bytes text.old ++ flat_map file_word (map (λ path. path.now) paths.now)) }
{
    for path in paths {
        push_file(text, path)?;
    }
    Ok(())
}

/// Images and mapfiles, each two as an option.
#[tactic(auto, unfolding(crate::specs::Repeating::pair_words))]
fn push_pairs(text: &mut String, paths: &[&str]) -> Result<(), OutOfMemory>
    ensures { OnOk result (string_bytes text.new ≡ string_bytes text.old ++ pair_words (map (λ path. path.now) paths.now)) }
{
    match paths {
        [] | [_] => Ok(()),
        [image, mapfile, rest @ ..] => {
            text.push_str(" --ddrescue")?;
            push_file(text, image)?;
            push_file(text, mapfile)?;
            push_pairs(text, rest)
        }
    }
}

/// Appends all inputs as arguments, each after a space.
///
/// # Errors
///
/// If memory runs out. Then a part may be appended.
#[tactic(auto, unfolding(crate::specs::Repeating::inputs_words))]
pub fn push_inputs(text: &mut String, given: &Given<'_>) -> Result<(), OutOfMemory>
    ensures { OnOk result (string_bytes text.new ≡ string_bytes text.old ++ inputs_words (given_now given.now)) }
{
    push_files(text, given.files)?;
    push_pairs(text, given.parts)
}

/// Where the disc ends.
fn push_end(text: &mut String, size: Option<&str>, last: u32) -> Result<(), OutOfMemory>
    ensures { OnOk result (string_bytes text.new ≡ string_bytes text.old ++ end_words (option_map (λ size. size.now) size.entry) last) }
{
    match size {
        None => write!(text, " --last {last}"),
        Some(size) => {
            text.push_str(" --size ")?;
            push_shell_word(text, size)
        }
    }
}

/// The rules of a profile as arguments of a command, with a space before them: empty for the strict rules.
fn rules_words(profile: Profile) -> &'static str
    ensures { result.now ≡ rules_words profile }
{
    match profile {
        Profile::Strict => "",
        Profile::Wide => " --profile wide",
    }
}

/// That what is of another disc is to be joined.
pub(crate) fn force_words(force: bool) -> &'static str
    ensures { result.now ≡ force_words force }
{
    if force { " --force" } else { "" }
}

/// Appends what says how the disc is read, each argument after a space.
///
/// # Errors
///
/// If memory runs out. Then a part may be appended.
#[tactic(auto, unfolding(crate::specs::Repeating::disc_words))]
pub fn push_disc_words(
    text: &mut String,
    given: &Given<'_>,
    profile: Profile,
    last: u32,
) -> Result<(), OutOfMemory>
    ensures { OnOk result (string_bytes text.new ≡ string_bytes text.old ++ disc_words (given_now given.now) profile last) }
{
    push_end(text, given.size, last)?;
    text.push_str(rules_words(profile))?;
    text.push_str(force_words(given.force))
}

/// Appends the name of the image of a pass.
pub(crate) fn push_image_name(text: &mut String, number: u64) -> Result<(), OutOfMemory>
    ensures { OnOk result (string_bytes text.new ≡ string_bytes text.old ++ image_name number) }
{
    write!(text, "p{number}.img")
}

/// Appends the name of the mapfile of a pass.
pub(crate) fn push_mapfile_name(text: &mut String, number: u64) -> Result<(), OutOfMemory>
    ensures { OnOk result (string_bytes text.new ≡ string_bytes text.old ++ mapfile_name number) }
{
    write!(text, "p{number}.map")
}

/// Whether a path ends with one of two names.
#[tactic(auto, unfolding(crate::specs::Repeating::ends_in))]
fn ends_in(path: &str, image: &str, mapfile: &str) -> bool
    ensures { result ≡ ends_in image.now mapfile.now path.now }
{
    let bytes = path.as_bytes();
    bytes.ends_with(image.as_bytes()) || bytes.ends_with(mapfile.as_bytes())
}

/// Whether one of these paths does.
fn ends_any(paths: &[&str], image: &str, mapfile: &str) -> bool
    ensures { result ≡ list_any (ends_in image.now mapfile.now) (map (λ path. path.now) paths.now) }
{
    for path in paths {
        if ends_in(path, image, mapfile) {
            return true;
        }
    }
    false
}

/// Whether an input has a name of the pass of this number.
fn is_taken(alloc: Global, given: &Given<'_>, number: u64) -> Result<bool, OutOfMemory>
    ensures { IfOk result (λ taken. taken ≡ is_taken (given_now given.now) number) }
{
    let mut image = String::new(alloc);
    push_image_name(&mut image, number)?;
    let mut mapfile = String::new(alloc);
    push_mapfile_name(&mut mapfile, number)?;
    let image = image.as_str();
    let mapfile = mapfile.as_str();
    Ok(ends_any(given.files, image, mapfile) || ends_any(given.parts, image, mapfile))
}

/// A number, or the first one after it of which no input is; one further for each of these paths at most.
#[tactic(auto, unfolding(crate::specs::Repeating::past_taken))]
fn past_taken(
    alloc: Global,
    given: &Given<'_>,
    paths: &[&str],
    number: u64,
) -> Result<u64, OutOfMemory>
    requires { number + length paths.now < 2 ^ 64 }
    ensures value { IfOk result (λ free. free ≡ past_taken (given_now given.now) (map (λ path. path.now) paths.now) number) }
    ensures bound { IfOk result (λ free. free ≤ number + length paths.now) }
{
    match paths {
        [] => Ok(number),
        [_, rest @ ..] => {
            if is_taken(alloc, given, number)? {
                past_taken(alloc, given, rest, number + 1)
            } else {
                Ok(number)
            }
        }
    }
}

/// The number of a pass that is none of the inputs, where this many blocks are known.
///
/// # Errors
///
/// If memory runs out.
pub fn pass_number(alloc: Global, given: &Given<'_>, known: u32) -> Result<u64, OutOfMemory>
    ensures { IfOk result (λ free. free ≡ pass_number (given_now given.now) known) }
{
    let free = past_taken(alloc, given, given.files, u64::from(known))?;
    past_taken(alloc, given, given.parts, free)
}
