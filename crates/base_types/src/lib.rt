//! A shared text, the error of a failed allocation, and values kept while something is made. Begin at `text.rt`.
#![tactic(auto)]

mod keeping;
mod memory;
mod short;
mod text;

pub use keeping::pair_ok;
pub use memory::Memory;
pub use text::Text;
