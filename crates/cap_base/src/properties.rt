//! Property lines as data: what a line sets (`Entry`, `Key`, `Value`), and the first fault of a text (`ConfigFault`).

mod entry;
mod fault;
mod key;
mod names;
mod setting;
mod value;

pub use entry::Entry;
pub use fault::{ConfigFault, ConfigFaultKind};
pub use key::Key;
pub use names::Names;
pub use setting::Setting;
pub use value::Value;
