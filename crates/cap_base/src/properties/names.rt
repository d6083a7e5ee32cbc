//! The names in the value of a `queues` line, each once (`Names`).
ghost use Rattle.std.specs.Prelude.{◌≡◌};
ghost use Rattle.cap_base.specs.properties.Seen.{HasAll};

use crate::ShortText;
use std::collections::HashMap;
use std::marker::Model;

/// The names of the queues below a queue, in the order of its list. Contracts see it as that list.
#[derive(Drop)]
pub struct Names<'t> {
    names: Vec<ShortText>,
    /// The same names, to look one up.
    set: HashMap<&'t [u8], ()>,
}

impl<'t> Model for Names<'t> {
    ghost use Rattle.std.specs.Prelude.{List, ℕ};
    ghost use Rattle.cap_base.specs.properties.Seen.{HasAll};

    ghost Value = { List (List ℕ) };

    ghost view = { λ n. n.names.items };

    ghost invariant = { λ n. HasAll n.set n.names.items };
}

impl<'t> Names<'t> {
    ghost use Rattle.cap_base.specs.properties.Seen.{contains_bytes};

    /// These names, and the same names in a set.
    pub fn new(names: Vec<ShortText>, set: HashMap<&'t [u8], ()>) -> Names<'t>
        requires { HasAll set names.items }
        ensures { result ≡ names.items }
    {
        Names { names, set }
    }

    /// The names, each once.
    pub fn names(&self) -> &[ShortText]
        ensures { result.now ≡ self.now }
    {
        &self.names
    }

    /// Whether this name is among them.
    pub fn has(&self, name: &[u8]) -> bool
        ensures { result ≡ contains_bytes self.now name.now }
    {
        self.set.contains_key(name)
    }
}
