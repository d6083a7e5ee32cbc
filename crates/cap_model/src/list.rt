//! The lists that requests bring, bounded by their type (`List`): asks (`Asks`), container numbers (`Numbers`), and property
//! lines (`SettingsText`).
ghost use Rattle.std.specs.Prelude.{◌≡◌, ◌≤◌, [], length, IfOk};

use crate::ask::Ask;
use cap_base::NoMemory;
use std::alloc::Global;
use std::marker::Model;
use std::sync::Arc;

/// The items that a request brings, in their order: at most `MAX`. All copies of a request share them. Contracts see it as
/// their list.
#[derive(Drop)]
pub struct List<T, const MAX: usize> {
    items: Option<Arc<Vec<T>>>,
}

/// The asks of one request.
pub type Asks<const K: usize> = List<Ask<K>, 256>;

/// The containers that one request names.
pub type Numbers = List<u64, 1024>;

/// The bytes of the property lines of one request: as many as a frame holds beside its head.
pub type SettingsText = List<u8, 65_526>;

impl<T, const MAX: usize> Model for List<T, MAX> {
    ghost use Rattle.std.specs.Prelude.{List as Items, ◌≤◌, [], length, option_map, unwrap_or};

    ghost Value = { Items T };

    ghost view = { λ l. unwrap_or (option_map (λ items. items.value.items) l.items) [] };

    ghost invariant = { λ l. length (unwrap_or (option_map (λ items. items.value.items) l.items) []) ≤ MAX };
}

impl<T, const MAX: usize> List<T, MAX> {
    /// No items. It takes no memory.
    pub fn empty() -> List<T, MAX>
        ensures { result ≡ [] }
    {
        List { items: None }
    }

    /// Its items.
    pub fn as_slice(&self) -> &[T]
        ensures value { result.now ≡ self.now }
        ensures few { length result.now ≤ MAX }
    {
        match &self.items {
            Some(items) => items.as_slice(),
            None => &[],
        }
    }

    /// The same items, shared with this list: it takes no memory. If it has too many owners there is none.
    pub fn share(&self) -> Result<List<T, MAX>, NoMemory>
        ensures { IfOk result (λ list. list ≡ self.now) }
    {
        let Some(items) = &self.items else {
            return Ok(List::empty());
        };
        match Arc::try_clone(items) {
            Ok(items) => Ok(List { items: Some(items) }),
            Err(_) => Err(NoMemory),
        }
    }
}

impl<T: Drop, const MAX: usize> List<T, MAX> {
    /// These items. If an allocation fails there is no list.
    pub fn of(alloc: Global, items: Vec<T>) -> Result<List<T, MAX>, NoMemory>
        requires { length items.items ≤ MAX }
        ensures { IfOk result (λ list. list ≡ items.items) }
    {
        match Arc::new(alloc, items) {
            Ok(items) => Ok(List { items: Some(items) }),
            Err(_) => Err(NoMemory),
        }
    }
}
