//! What an operator sees of a queue (`QueueReport`) and of the cluster (`ClusterReport`).

use cap_vector::{Resource, Sum};

/// What an operator sees of a queue.
#[derive(Clone, Copy)]
pub struct QueueReport<const K: usize> {
    /// Whether it and every queue above it are RUNNING.
    pub running: bool,
    /// Whether it has no children.
    pub leaf: bool,
    /// Its capacity, in MiB, vcores and GPUs.
    pub guaranteed: Resource<K>,
    /// Its maximum capacity, its own or inherited, in MiB, vcores and GPUs; none where it has neither.
    pub maximum: Option<Resource<K>>,
    /// What all applications in and under it use, in MiB, vcores and GPUs.
    pub used: Sum<K>,
    /// How many applications are active in and under it.
    pub apps: u32,
}

/// What an operator sees of the cluster.
#[derive(Clone, Copy)]
pub struct ClusterReport<const K: usize> {
    /// How many nodes are present.
    pub nodes: u32,
    /// How many applications are active.
    pub apps: u32,
    /// How many containers are live.
    pub containers: u32,
    /// What all nodes have together, in MiB, vcores and GPUs.
    pub totals: Resource<K>,
    /// What all applications use, in MiB, vcores and GPUs: the use of `root`.
    pub used: Sum<K>,
}
