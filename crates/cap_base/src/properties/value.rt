//! The value of a property line: amounts, a number, a state or a list of names (`Value`).

use crate::RESOURCES;
use crate::properties::names::Names;
use cap_vector::Resource;

/// What a line sets its property to.
#[derive(Drop)]
pub enum Value<'t> {
    /// The names of the queues below.
    Names(Names<'t>),
    /// Memory in MiB, vcores, and `yarn.io/gpu`.
    Amounts(Resource<RESOURCES>),
    Number(u64),
    /// RUNNING, and not STOPPED.
    Running(bool),
}
