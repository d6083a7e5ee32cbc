//! The properties that a line may set, of a queue or of the whole cluster (`Setting`).

/// A property: of one queue, or of the whole cluster.
#[derive(Clone, Copy, Debug)]
pub enum Setting {
    /// `yarn.scheduler.capacity.<queue-path>.queues`
    Queues,
    /// `yarn.scheduler.capacity.<queue-path>.capacity`
    Capacity,
    /// `yarn.scheduler.capacity.<queue-path>.maximum-capacity`
    MaximumCapacity,
    /// `yarn.scheduler.capacity.<queue-path>.user-limit-factor`
    UserLimitFactor,
    /// `yarn.scheduler.capacity.<queue-path>.state`
    State,
    /// `yarn.scheduler.capacity.maximum-applications`
    MaximumApplications,
    /// `yarn.scheduler.minimum-allocation-mb`
    MinimumMemory,
    /// `yarn.scheduler.minimum-allocation-vcores`
    MinimumVcores,
    /// `yarn.resource-types.yarn.io/gpu.minimum-allocation`
    MinimumGpu,
    /// `yarn.scheduler.maximum-allocation-mb`
    MaximumMemory,
    /// `yarn.scheduler.maximum-allocation-vcores`
    MaximumVcores,
    /// `yarn.resource-types.yarn.io/gpu.maximum-allocation`
    MaximumGpu,
}
