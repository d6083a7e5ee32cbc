//! Tests of which bytes are a text, and of the numbers of refusals.

use cap_model::{PathText, Refusal, ShortText};

/// Whether these bytes are a text, which then keeps them.
fn is_text(bytes: &[u8]) -> bool {
    match ShortText::new(bytes) {
        Some(text) => text.as_bytes() == bytes,
        None => false,
    }
}

#[test]
fn texts_are_graphic_and_bounded(rt: HostRuntime) {
    let rows: [(&[u8], bool); 7] = [
        (b"n1", true),
        (b"", false),
        (b"a b", false),
        (&[0x7f], false),
        (b"!~", true),
        (&[b'x'; 64], true),
        (&[b'x'; 65], false),
    ];
    for &(bytes, answer) in &rows {
        assert!(rt; is_text(bytes) == answer, "{bytes:?}");
    }
    assert!(rt; PathText::new(&[b'x'; 255]).is_some());
}

/// Refusals and their numbers.
const REFUSALS: [(Refusal, u8); 10] = [
    (Refusal::UnknownQueue, 1),
    (Refusal::NotLeaf, 2),
    (Refusal::QueueStopped, 3),
    (Refusal::TooManyApplications, 4),
    (Refusal::HostTaken, 12),
    (Refusal::TotalTooLarge, 13),
    (Refusal::TooManyNodes, 14),
    (Refusal::ZeroResource, 15),
    (Refusal::NumbersSpent, 16),
    (Refusal::NoMemory, 20),
];

#[test]
fn refusals_have_their_numbers(rt: HostRuntime) {
    for &(refusal, status) in &REFUSALS {
        assert!(rt; refusal.status() == status, "{status}");
    }
}
