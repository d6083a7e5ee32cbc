//! The answers to an Allocate, in numbers, lent and owned (`AllocateReply`), and to a Heartbeat (`HeartbeatReply`).
ghost use Rattle.std.specs.Prelude.{◌≡◌, ◌≤◌, length};
ghost use Rattle.cap_base.specs.Limits.{news_max};

use crate::news::{End, Grant};
use std::marker::Model;

/// The most grants, and the most ends, that one reply reports.
pub const NEWS_MAX: usize = 64;

/// The answer to a processed allocate without its grants and ends, but how many they are.
#[derive(Clone, Copy, Debug, PartialEq, Eq)]
pub struct Reported {
    /// The new response id.
    pub response: u32,
    /// How many releases named no live container of the application.
    pub ignored: u16,
    /// How many grants it reports.
    pub grants: usize,
    /// How many ends it reports.
    pub ends: usize,
}

/// The answer to a processed allocate, with the application that keeps its grants and ends.
#[derive(Clone, Copy, Debug, PartialEq, Eq)]
pub struct AllocateNumbers {
    /// The number of the application.
    pub app: u64,
    pub reported: Reported,
}

/// The answer to a processed allocate, its grants and ends lent: at most `NEWS_MAX` of each.
#[derive(Drop)]
pub struct AllocateView<'a, const K: usize> {
    /// The new response id.
    pub response: u32,
    /// How many releases named no live container of the application.
    pub ignored: u16,
    /// The oldest grants that were not reported before.
    pub grants: &'a [Grant<K>],
    /// The oldest ends that were not reported before.
    pub ends: &'a [End],
}

impl<'a, const K: usize> Model for AllocateView<'a, K> {
    ghost use Rattle.std.specs.Prelude.{◌≤◌, length};
    ghost use Rattle.cap_base.specs.Limits.{news_max};
    ghost use Rattle.cap_model.specs.News.{AllocateReply as Told};

    ghost Value = { Told };

    ghost view = { λ r. record {
      response = r.response;
      ignored = r.ignored;
      grants = r.grants.now;
      ends = r.ends.now;
    } };

    ghost invariant = { λ r. (length r.grants.now ≤ news_max) × (length r.ends.now ≤ news_max) };
}

impl<'a, const K: usize> AllocateView<'a, K> {
    /// The oldest grants that were not reported before.
    pub fn grants(&self) -> &[Grant<K>]
        ensures value { result.now ≡ self.now.grants }
        ensures few { length result.now ≤ news_max }
    {
        self.grants
    }

    /// The oldest ends that were not reported before.
    pub fn ends(&self) -> &[End]
        ensures value { result.now ≡ self.now.ends }
        ensures few { length result.now ≤ news_max }
    {
        self.ends
    }
}

/// The answer to a processed allocate, owned: at most `NEWS_MAX` grants and ends.
#[derive(Drop)]
pub struct AllocateReply<const K: usize> {
    /// The new response id.
    pub response: u32,
    /// How many releases named no live container of the application.
    pub ignored: u16,
    /// The oldest grants that were not reported before.
    pub grants: Vec<Grant<K>>,
    /// The oldest ends that were not reported before.
    pub ends: Vec<End>,
}

impl<const K: usize> Model for AllocateReply<K> {
    ghost use Rattle.std.specs.Prelude.{◌≤◌, length};
    ghost use Rattle.cap_base.specs.Limits.{news_max};
    ghost use Rattle.cap_model.specs.News.{AllocateReply as Told};

    ghost Value = { Told };

    ghost view = { λ r. record {
      response = r.response;
      ignored = r.ignored;
      grants = r.grants.items;
      ends = r.ends.items;
    } };

    ghost invariant = { λ r. (length r.grants.items ≤ news_max)
        × (length r.ends.items ≤ news_max) };
}

impl<const K: usize> AllocateReply<K> {
    /// The same, lent.
    pub fn view(&self) -> AllocateView<'_, K>
        ensures { result ≡ self.now }
    {
        AllocateView {
            response: self.response,
            ignored: self.ignored,
            grants: &self.grants,
            ends: &self.ends,
        }
    }
}

/// The answer to a processed heartbeat.
#[derive(Clone, Copy, Debug, PartialEq, Eq)]
pub struct HeartbeatReply {
    /// The new response id.
    pub response: u32,
    /// How many of the ended containers were not live on the node.
    pub ignored: u16,
    /// How many containers are live on the node now.
    pub live: u32,
}
