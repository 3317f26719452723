//! Lost folders, their trees and lost files of small volumes, as expected from the formats' description.

mod rows;
