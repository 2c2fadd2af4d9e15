//! The two files of a store: the database file and its log. Opens them, or creates a database in them.
//!
//! It promises that an existing store keeps its pages, that a new one has small pages with checksums, that a
//! stop leaves nothing or a store, and that a damaged log is refused (`damage.rt`, `specs/Damage.antt`), and so is
//! a log without its file (`orphans.rt`). Begin with `opening.rt` and `specs/Files.antt`.
//!
//! It doesn't promise that no other program writes the files: it keeps out those that lock them.
#![tactic(auto)]

mod causes;
mod creating;
mod damage;
mod errors;
mod laws;
mod opening;
mod orphans;
mod path;

pub use causes::OpenCause;
pub use laws::{spares_files_law, spares_stopped_law};
pub use opening::open_files;
pub use path::open_path;
