//! Readings and table files.

mod calls;
mod ordered;
mod packet_files;
mod steps;
mod taking;
mod whole;
