//! Reports of sample volumes, printed and extracted, over sinks and memory that stop half way.

mod every_table;
mod extraction;
mod json;
mod listings;
mod profiles;
mod text;
mod unnamed;
