//! Asks (resource requests) of an application (`Ask`), their keys (`Key`), and which places they take (`takes_place`).
ghost use Rattle.std.specs.Prelude.{◌≡◌, ◌==◌, ◌&&◌, ◌||◌, ◌∷◌, [], bytes_eq};
ghost use Rattle.cap_base.specs.Texts.{star};
ghost use Rattle.cap_model.specs.Asks.{same_key};
ghost use Rattle.cap_model.specs.Asking.{is_changed};

use cap_base::ShortText;
use cap_vector::Resource;
use std::marker::Model;

/// The key of an ask within its application.
#[derive(Clone, Copy, Debug, PartialEq, Eq)]
pub struct Key {
    /// The priority of the request: the smaller number is served first.
    pub priority: u32,
    /// The allocation request id.
    pub request: u64,
}

impl Key {
    /// Whether it is the same key.
    pub fn is_same(&self, other: &Key) -> bool
        ensures { result ≡ same_key self.now other.now }
    {
        self.priority == other.priority && self.request == other.request
    }
}

/// An ask of an application: how many containers of this resource, in MiB, vcores and GPUs, are still wanted for the key, and
/// where. A place is a host, a rack, or `*` for anywhere. A count of 0 takes the key away.
#[derive(Clone, Copy, Debug, PartialEq, Eq)]
pub struct Ask<const K: usize> {
    key: Key,
    count: u32,
    resource: Resource<K>,
    place: ShortText,
}

impl<const K: usize> Model for Ask<K> {
    ghost use Rattle.cap_model.specs.Asks.{Ask as Wish};

    ghost Value = { Wish };

    ghost view = { λ a. record {
      key = a.key;
      count = a.count;
      resource = a.resource;
      place = a.place;
    } };

    ghost inverse = { λ a. record {
      key = a.key;
      count = a.count;
      resource = a.resource;
      place = a.place;
    } };
}

impl<const K: usize> Ask<K> {
    /// The ask for so many containers of this resource, in MiB, vcores and GPUs, at this place.
    pub fn new(key: &Key, count: u32, resource: &Resource<K>, place: &ShortText) -> Ask<K>
        ensures { result ≡ record {
          key = key.now;
          count = count;
          resource = resource.now;
          place = place.now;
        } }
    {
        Ask {
            key: *key,
            count,
            resource: *resource,
            place: *place,
        }
    }

    /// Its key.
    pub fn key(&self) -> Key
        ensures { result ≡ self.now.key }
    {
        self.key
    }

    /// How many containers are still wanted.
    pub fn count(&self) -> u32
        ensures { result ≡ self.now.count }
    {
        self.count
    }

    /// What each is to have, in MiB, vcores and GPUs.
    pub fn resource(&self) -> Resource<K>
        ensures { result ≡ self.now.resource }
    {
        self.resource
    }

    /// Where they may be: a host, a rack, or `*`.
    pub fn place(&self) -> ShortText
        ensures { result ≡ self.now.place }
    {
        self.place
    }

    /// Whether it is for another resource or another place than the ask that it replaces.
    pub fn is_changed(&self, old: &Ask<K>) -> bool
        ensures { result ≡ is_changed self.now old.now }
    {
        self.resource.amounts() != old.resource.amounts()
            || self.place.as_bytes() != old.place.as_bytes()
    }

    /// The same ask for another resource, in MiB, vcores and GPUs.
    pub fn with_resource(&self, resource: &Resource<K>) -> Ask<K>
        ensures { result ≡ record self.now { resource = resource.now } }
    {
        Ask {
            resource: *resource,
            ..*self
        }
    }

    /// The same ask for another number of containers.
    pub fn with_count(&self, count: u32) -> Ask<K>
        ensures { result ≡ record self.now { count = count } }
    {
        Ask { count, ..*self }
    }
}

/// Whether a place is anywhere (`*`), the host or the rack.
pub fn takes_place(place: &ShortText, host: &ShortText, rack: &ShortText) -> bool
    ensures { result ≡ (bytes_eq place.now (star ∷ []) || bytes_eq place.now host.now
        || bytes_eq place.now rack.now) }
{
    let place = place.as_bytes();
    place == b"*".as_slice() || place == host.as_bytes() || place == rack.as_bytes()
}
