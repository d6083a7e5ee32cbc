//! Where an audit stands between two lines (`Place`).
ghost use Rattle.std.specs.Prelude.{◌≡◌, false};

/// Where an audit stands: how many epochs have begun, whether the last of them goes on, and how many entries it has.
#[derive(Clone, Copy, Debug, PartialEq, Eq)]
pub(crate) struct Place {
    pub epochs: u64,
    pub inside: bool,
    pub entries: u64,
}

impl Place {
    /// Before the first epoch.
    pub(crate) fn start() -> Place
        ensures { result ≡ record { epochs = 0; inside = false; entries = 0 } }
    {
        Place {
            epochs: 0,
            inside: false,
            entries: 0,
        }
    }
}
