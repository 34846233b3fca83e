//! The print spooler: the lists of files that its messages name (`read_list`), and the process that prints these files (`Spool`),
//! by one table of calls. (MP/M II User's Guide, "SPOOL", "STOPSPLR".)
#![tactic(auto)]

mod list;
mod spool;
mod table;
mod waiting;

pub use list::{BadSpoolList, SpoolItem, SpoolList, read_list};
pub use spool::Spool;
