//! A line that sets a property (`Entry`).

use crate::PathText;
use crate::properties::setting::Setting;
use crate::properties::value::Value;

/// A line that sets a property.
#[derive(Drop)]
pub struct Entry<'t> {
    /// The line, counted from 1.
    pub line: usize,
    /// The queue that it is about, if it is about one.
    pub queue: Option<PathText>,
    pub setting: Setting,
    pub value: Value<'t>,
}
