//! Workers, and sessions that are served from a shared cluster, over readers and writers in memory.
mod epochs;
mod offering;
mod refreshing;
mod serving;
mod sessions;
mod starved;
mod streams;
mod turning;
mod turns;
