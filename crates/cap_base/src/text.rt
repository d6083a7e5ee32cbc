//! Texts of messages, held inline (`Text`): hosts, racks, places, users (`ShortText`), paths of queues (`PathText`).
ghost use Rattle.std.specs.Prelude.{◌≡◌, ◌↔◌, length, IfSome, IsSome, true};
ghost use Rattle.std.specs.List.{list_all};
ghost use Rattle.cap_base.specs.Texts.{star, is_graphic, is_text};

use std::hash::{Hash, Hasher};
use std::marker::Model;

/// A text of a message: 1 to `MAX` bytes, each from 0x21 to 0x7E, held inline. Contracts see it as its bytes, which are
/// what is compared and hashed, as of a `str`: never the room behind them.
#[derive(Clone, Copy, Debug)]
pub struct Text<const MAX: usize> {
    bytes: [u8; MAX],
    len: usize,
}

/// A host, a rack, a place or a user.
pub type ShortText = Text<64>;

/// The dotted path of a queue.
pub type PathText = Text<255>;

impl<const MAX: usize> Model for Text<MAX> {
    ghost use Rattle.std.specs.Prelude.{List, ℕ, take, length};
    ghost use Rattle.std.proofs.Common.{sym};
    ghost use Rattle.cap_base.specs.Texts.{IsStored, padded_text, length_held};

    ghost Value = { List ℕ };

    ghost view = { λ t. take t.len t.bytes };

    ghost invariant = { λ t. IsStored MAX t.len t.bytes };

    ghost inverse = { λ text. record { bytes = padded_text MAX text; len = length text } };

    ghost inverse_ok = { λ t h i. record {
      bytes = sym h.padding i;
      len = length_held MAX t.len t.bytes h i;
    } };
}

impl<const MAX: usize> PartialEq for Text<MAX> {
    ghost use Rattle.std.specs.Prelude.{nat_eq};
    ghost use Rattle.std.specs.Cmp.{partial_equiv_from_equiv};
    ghost use Rattle.std.specs.Cmp.Lexicographic.{nat_list_eq_equiv, pointwise};

    ghost eq = { λ s t. pointwise nat_eq s t };

    ghost laws = { partial_equiv_from_equiv nat_list_eq_equiv };

    fn eq(&self, other: &Self) -> bool {
        self.as_bytes() == other.as_bytes()
    }
}

impl<const MAX: usize> Eq for Text<MAX> {
    ghost use Rattle.std.specs.Cmp.Lexicographic.{nat_list_eq_equiv};

    ghost laws = { nat_list_eq_equiv };
}

impl<const MAX: usize> Hash for Text<MAX> {
    ghost use Rattle.std.specs.Prelude.{◌∷◌, []};
    ghost use Rattle.std.specs.Cmp.Rules.{hashing};
    ghost use Rattle.std.proofs.Common.{rules};

    ghost hash_input = { λ t. t ∷ (255 ∷ []) ∷ [] };

    ghost respects_eq = { Prim.search (hashing, rules) };

    fn hash<H: Hasher>(&self, state: &mut H) {
        state.write(self.as_bytes());
        state.write_u8(0xFF);
    }
}

impl ShortText {
    ghost use Rattle.std.specs.Prelude.{◌∷◌, []};

    /// `*`: the place that is anywhere.
    pub fn any() -> ShortText
        ensures { result ≡ star ∷ [] }
    {
        let Some(any) = ShortText::new(b"*") else {
            unreachable!()
        };
        any
    }
}

impl<const MAX: usize> Text<MAX> {
    /// The text of these bytes. None exactly where they are no text of at most `MAX` bytes.
    pub fn new(bytes: &[u8]) -> Option<Text<MAX>>
        ensures some { IfSome result (λ t. t ≡ bytes.now) }
        ensures variant { IsSome result ↔ (is_text MAX bytes.now ≡ true) }
    {
        if !is_text(MAX, bytes) {
            return None;
        }
        let mut held = [0; MAX];
        for (i, byte) in bytes.iter().enumerate() {
            held[i] = *byte;
        }
        Some(Text {
            bytes: held,
            len: bytes.len(),
        })
    }

    /// Its bytes.
    pub fn as_bytes(&self) -> &[u8]
        ensures value { result.now ≡ self.now }
        ensures text { is_text MAX self.now ≡ true }
    {
        &self.bytes[..self.len]
    }
}

fn is_text(most: usize, bytes: &[u8]) -> bool
    ensures { result ≡ is_text most bytes.now }
{
    !bytes.is_empty() && bytes.len() <= most && all_graphic(bytes)
}

fn all_graphic(bytes: &[u8]) -> bool
    ensures { result ≡ list_all is_graphic bytes.now }
{
    bytes.iter().all(|b| 33 <= *b && *b <= 126)
}
