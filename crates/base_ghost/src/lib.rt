//! A number and a history of bytes for contracts alone: neither takes memory, and their methods do nothing at run time.
//!
//! Both stand on `http_server::Log`. That is the kit's public, proved history without bytes: an HTTP server happens to
//! need one, and nothing else of that crate is used here.
//!
//! Begin at `number.rt`.
#![tactic(auto)]

mod history;
mod number;

pub use history::History;
pub use number::Count;
