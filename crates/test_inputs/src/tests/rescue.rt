//! Mapfiles and images of GNU ddrescue.

mod images;
mod maps;
mod pairs;
mod texts;
