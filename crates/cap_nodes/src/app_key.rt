//! The key of an ask with its application's number (`AppKey`).
ghost use Rattle.std.specs.Prelude.{◌≡◌};
ghost use Rattle.cap_nodes.specs.Counting.{app_key};

use cap_model::Key;

/// The key of an ask, with the number of its application.
#[derive(Clone, Copy, Debug, PartialEq, Eq, Hash)]
pub(crate) struct AppKey {
    app: u64,
    priority: u32,
    request: u64,
}

impl AppKey {
    /// Of a key of an application.
    pub(crate) fn new(app: u64, key: &Key) -> AppKey
        ensures { result ≡ app_key app key.now }
    {
        AppKey {
            app,
            priority: key.priority,
            request: key.request,
        }
    }
}
