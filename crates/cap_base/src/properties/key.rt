//! The key of a property line (`Key`).

use crate::PathText;
use crate::properties::setting::Setting;

/// A key: the queue that it is of, if it is of one, and the property.
#[derive(Clone, Copy)]
pub struct Key {
    pub queue: Option<PathText>,
    pub setting: Setting,
}
