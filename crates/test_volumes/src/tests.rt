//! What is expected comes from the formats' description, byte by byte.

mod fields;
mod files;
mod lawful_volumes;
mod lawfulness;
mod lost;
mod rows;
mod samples;
mod spaces;
mod starts;
mod volumes;
mod walks;

use std::fmt::{Debug, Display};
use std::process::Abort;

/// The text `told` is the expected one.
pub fn assert_text(rt: &impl Abort, told: String, expected: &str) {
    assert_eq!(rt; told.as_str(), expected);
}

/// The text `told` in this case is the expected one.
pub fn assert_text_in<C: Debug + Drop>(rt: &impl Abort, told: String, expected: &str, case: C) {
    assert_eq!(rt; told.as_str(), expected, "{case:?}");
}

/// What is found is what was expected.
pub fn assert_same<T: PartialEq + Debug + Drop>(rt: &impl Abort, found: T, expected: T) {
    assert_eq!(rt; found, expected);
}

/// It is so in this case.
pub fn assert_case<C: Display + Drop>(rt: &impl Abort, is_so: bool, case: C) {
    assert!(rt; is_so, "{case}");
}

/// What is found in this case is what was expected.
pub fn assert_same_in<T: PartialEq + Debug + Drop, C: Display + Drop>(
    rt: &impl Abort,
    found: T,
    expected: T,
    case: C,
) {
    assert_eq!(rt; found, expected, "{case}");
}
