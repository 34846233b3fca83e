//! The program's one call: what its words ask, done over files, drives and a sink.
#![tactic(auto)]

mod boot;
mod data;
mod looking;
mod message;
mod report;
mod run;
mod seeded;
mod seeds;
mod status;
mod words;

pub use looking::Look;
pub use message::Message;
pub use run::{run_command, run_words};
pub use seeds::generated;
pub use status::{Input, Status};
pub use words::{Asked, Form, asked_by, steps_of};
