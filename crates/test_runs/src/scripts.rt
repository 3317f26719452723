//! Scripts: cases, each run on files of its own, and the report of the lines that do not hold.
//!
//! A script is paragraphs of lines, separated by empty lines. A paragraph that begins with `= NAME` sets up what there is for each of the cases
//! after it, up to the next such one; its lines `then LINE` are checked in each of them too, at its end. Each other paragraph is a
//! case: a line for each thing to set up, `$` and the arguments of a run, and a line for each thing to check after it. A line that begins with
//! `#` is a comment. A paragraph that begins with `* NAME` is a list, and a line `* NAME` elsewhere is replaced by the lines of the list.

use crate::given::give;
use crate::runs::Program;
use crate::seen::see;
use crate::texts::{first_word, number_of};
use crate::trial::Trial;
use std::alloc::{AllocError, Global};

/// What is not as a script says of this program: nothing where all is.
pub fn faults<P: Program>(alloc: Global, program: &P, script: &str) -> Result<String, AllocError> {
    let script = expanded(alloc, script)?;
    let mut told = String::new(alloc);
    let mut kept = String::new(alloc);
    let mut head = String::new(alloc);
    let mut has_case = true;
    for paragraph in script.as_str().trim().split("\n\n") {
        if paragraph.starts_with("= ") {
            tell_if(&mut told, !has_case, head.as_str(), "\nhas no case\n")?;
            head = String::from_str(alloc, paragraph)?;
            has_case = false;
        } else {
            try_case(
                alloc,
                program,
                &mut told,
                &mut kept,
                head.as_str(),
                paragraph,
            )?;
            has_case = true;
        }
    }
    tell_if(&mut told, !has_case, head.as_str(), "\nhas no case\n")?;
    Ok(told)
}

/// The script with the lines of each list where it is named.
fn expanded(alloc: Global, script: &str) -> Result<String, AllocError> {
    let mut all = String::new(alloc);
    for paragraph in script.trim().split("\n\n") {
        if !paragraph.starts_with("* ") {
            push_expanded(&mut all, script, paragraph)?;
        }
    }
    Ok(all)
}

fn push_expanded(all: &mut String, script: &str, paragraph: &str) -> Result<(), AllocError> {
    for line in paragraph.lines() {
        match line.strip_prefix("* ") {
            Some(name) => all.push_str(list_of(script, name))?,
            None => all.push_str(line)?,
        }
        all.push_str("\n")?;
    }
    all.push_str("\n")
}

/// The lines of the list with this name. If there is no such list, a line that is reported as not so.
fn list_of<'a>(script: &'a str, name: &str) -> &'a str {
    for paragraph in script.trim().split("\n\n") {
        let (first, lines) = match paragraph.split_once('\n') {
            Some((first, lines)) => (first, lines),
            None => (paragraph, ""),
        };
        if first.strip_prefix("* ") == Some(name) {
            return lines;
        }
    }
    "no such list"
}

/// Adds these texts to what is reported, where `is_so`.
fn tell_if(told: &mut String, is_so: bool, head: &str, text: &str) -> Result<(), AllocError> {
    if is_so {
        told.push_str(head)?;
        told.push_str(text)?;
    }
    Ok(())
}

/// Tries a case, which is for each number of a range where it begins with `each FROM TO`, and for some of them where it begins with `some
/// FROM TO`; `«n»` is the number then. It ends with the first number for which something is not so.
fn try_case<P: Program>(
    alloc: Global,
    program: &P,
    told: &mut String,
    kept: &mut String,
    head: &str,
    case: &str,
) -> Result<(), AllocError> {
    let (line, rest) = match case.split_once('\n') {
        Some((line, rest)) => (line, rest),
        None => (case, ""),
    };
    let (word, range) = first_word(line);
    if word != "each" && word != "some" {
        return try_lines(alloc, program, told, kept, head, case, 0);
    }
    let length = told.len();
    let (from, to) = first_word(range);
    for number in number_of(from)?..number_of(to)? {
        if told.len() == length && (word == "each" || is_tried(number)) {
            try_lines(alloc, program, told, kept, head, rest, number)?;
        }
    }
    Ok(())
}

/// Whether the number is tried where only some are: all about the header, the records' borders and the end of a reading of two records, and
/// some between.
fn is_tried(number: usize) -> bool {
    matches!(number, 0..40 | 2050..2090 | 4100.. ) || number % 32 == 7 || number % 32 == 16
}

/// Tries the lines of a case, on files of its own.
fn try_lines<P: Program>(
    alloc: Global,
    program: &P,
    told: &mut String,
    kept: &mut String,
    head: &str,
    case: &str,
    number: usize,
) -> Result<(), AllocError> {
    let mut trial = Trial::new(alloc);
    let length = told.len();
    let digits = format!(in alloc; "{number}")?;
    trial.name("n", digits.as_str())?;
    for line in head.lines() {
        if !line.starts_with("= ") && !line.starts_with("then ") {
            try_line(alloc, program, told, kept, &mut trial, line)?;
        }
    }
    for line in case.lines() {
        try_line(alloc, program, told, kept, &mut trial, line)?;
    }
    for line in head.lines() {
        if let Some(seen) = line.strip_prefix("then ") {
            try_line(alloc, program, told, kept, &mut trial, seen)?;
        }
    }
    let is_none = trial.ran.is_none();
    tell_if(told, is_none, case, "\nruns nothing\n")?;
    let is_more = told.len() != length;
    tell_if(told, is_more, first_line(head), "\n")
}

/// The first line of a text.
fn first_line(text: &str) -> &str {
    match text.split_once('\n') {
        Some((line, _)) => line,
        None => text,
    }
}

/// Does what a line says, or reports that it is not so, or not understood, with the number of the case and the outcome of the last run.
fn try_line<P: Program>(
    alloc: Global,
    program: &P,
    told: &mut String,
    kept: &mut String,
    trial: &mut Trial,
    line: &str,
) -> Result<(), AllocError> {
    if line.starts_with('#') || is_met(program, trial, kept, line).unwrap_or(false) {
        return Ok(());
    }
    let number = trial.text("«n»")?;
    let outcome = match &trial.ran {
        Some(ran) => format!(in alloc; "not so: {line}\n  {number}: {ran:?}\n")?,
        None => format!(in alloc; "not so: {line}\n")?,
    };
    told.push_str(outcome.as_str())
}

/// Does what a line says, or returns whether it is so. `$ WORDS` runs the program with these arguments; `keep` keeps the status and standard
/// output, and `as-kept` says that they are those. `any LINES | LINES` says that all lines of one choice are so, which ` & ` parts.
fn is_met<P: Program>(
    program: &P,
    trial: &mut Trial,
    kept: &mut String,
    line: &str,
) -> Result<bool, AllocError> {
    let (word, rest) = first_word(line);
    match word {
        "$" => trial.run(program, rest)?,
        "keep" => *kept = trial.printed()?,
        "as-kept" => return Ok(kept.as_str() == trial.printed()?.as_str()),
        "any" => return is_any(trial, rest),
        _ => return Ok(give(trial, word, rest)? || see(trial, word, rest)? == Some(true)),
    }
    Ok(true)
}

/// Whether all lines of one choice are so.
fn is_any(trial: &Trial, choices: &str) -> Result<bool, AllocError> {
    for choice in choices.split(" | ") {
        if are_all(trial, choice)? {
            return Ok(true);
        }
    }
    Ok(false)
}

fn are_all(trial: &Trial, choice: &str) -> Result<bool, AllocError> {
    for line in choice.split(" & ") {
        let (word, rest) = first_word(line);
        if see(trial, word, rest)? != Some(true) {
            return Ok(false);
        }
    }
    Ok(true)
}
