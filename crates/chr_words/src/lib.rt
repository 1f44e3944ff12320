//! What the words after the program's name ask for, and the reading and writing of a file.
#![tactic(auto)]

pub mod files;
pub mod words;

pub use files::{Creates, Disk, Opens, read_file, write_file};
pub use words::{Request, asked, asks_version};
