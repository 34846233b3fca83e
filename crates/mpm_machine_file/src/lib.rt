//! The machine file: a TOML document that says which machine is to be booted.
#![tactic(auto)]

mod drives;
mod error;
mod fields;
mod lists;
mod machine_file;
mod reading;
mod residents;
mod segments;
mod text;

pub use error::MachineError;
pub use lists::{DriveSpec, DriveSpecs, Segments};
pub use machine_file::MachineFile;
pub use reading::read_machine;
pub use text::Text;
