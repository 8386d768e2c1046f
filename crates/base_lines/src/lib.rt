//! Lines of an input, one at a time, and the devices that bytes come from and go to. Begin at `pending.rt`.
#![tactic(auto)]

mod device;
mod line;
mod pending;
mod standard;

pub use device::{DeviceError, Input, Output};
pub use line::Line;
pub use pending::{LineError, Pending, next_line};
pub use standard::{ReaderInput, WriterOutput};
