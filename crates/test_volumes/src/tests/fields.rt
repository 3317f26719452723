//! Tags, fields, names, labels, stamps and their moments.

mod labels;
mod layouts;
mod moments;
mod names;
mod stamps;
mod tags;
mod texts;
