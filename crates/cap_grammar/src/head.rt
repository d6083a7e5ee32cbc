//! The head of a message (`Head`), and which versions there are.
ghost use Rattle.std.specs.Prelude.{◌≡◌};
ghost use Rattle.cap_base.specs.Limits.{resources};
ghost use Rattle.cap_grammar.specs.Versions.{is_version};

/// The version that spells memory and vcores of each vector, and no GPUs.
pub(crate) const VERSION_1: u8 = 1;

/// The version that spells all amounts of each vector.
pub(crate) const VERSION_2: u8 = 2;

/// The head of a message: the version that it is spelled in, and the call id.
#[derive(Clone, Copy, Debug, PartialEq, Eq)]
pub struct Head {
    /// The version, 1 or 2. A reply has that of its request.
    pub version: u8,
    /// The number by which a client tells its replies apart. A reply has that of its request.
    pub call_id: u32,
}

// Whether messages have this version.
pub(crate) fn has_version(version: u8) -> bool
    ensures { result ≡ is_version resources version }
{
    version == VERSION_1 || version == VERSION_2
}
