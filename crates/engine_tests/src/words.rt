//! Tests of the words for a fault of property lines, whatever the text, and of the table of many queues.

use cap_config::{ConfigFault, ConfigFaultKind, Detail, DetailedFault, read_config};
use cap_words::{describe, queue_table};
use std::alloc::{AllocError, Global};

/// The words for a fault without a detail, and none where an allocation fails.
fn words(alloc: Global, text: &[u8], line: usize, kind: ConfigFaultKind) -> String {
    let found = DetailedFault {
        fault: ConfigFault { line, kind },
        detail: Detail::Plain,
    };
    match describe(alloc, text, &found) {
        Ok(words) => words,
        Err(_) => String::new(alloc),
    }
}

/// What is said where a line is no property.
const BAD_LINE: &str = "write the line as key=value, in printable ASCII alone";

#[test]
fn faults_of_another_text(rt: HostRuntime) {
    let text = b"yarn.scheduler.capacity.root.queues=a\n#\nx=1\n";
    let cases = [
        (0, ConfigFaultKind::NoMemory, "memory has run out"),
        (0, ConfigFaultKind::BadLine, BAD_LINE),
        (
            3,
            ConfigFaultKind::NoMemory,
            "line 3: x: memory has run out",
        ),
        (
            3,
            ConfigFaultKind::Repeated,
            "line 3: x: an earlier line has the same property: keep one of them",
        ),
        (
            9,
            ConfigFaultKind::GuaranteeOverMaximum,
            "line 9: the capacity is above the queue's maximum capacity, its own or inherited",
        ),
        (
            2,
            ConfigFaultKind::TooDeep,
            "line 2: this queue stands on level 16, root's being 1, and may have no queues below it",
        ),
    ];
    for &(line, kind, want) in &cases {
        assert_eq!(rt; words(rt.alloc(), text, line, kind).as_str(), want);
    }
}

const KINDS: [ConfigFaultKind; 11] = [
    ConfigFaultKind::BadLine,
    ConfigFaultKind::UnknownKey,
    ConfigFaultKind::Repeated,
    ConfigFaultKind::BadValue,
    ConfigFaultKind::NoSuchQueue,
    ConfigFaultKind::OverParent,
    ConfigFaultKind::GuaranteeOverMaximum,
    ConfigFaultKind::TooManyQueues,
    ConfigFaultKind::TooDeep,
    ConfigFaultKind::NoChild,
    ConfigFaultKind::NoMemory,
];

#[test]
fn any_fault_has_words_for_any_text(rt: HostRuntime) {
    let texts: [&[u8]; 5] = [
        b"",
        b"\xff\xfe\n\r\n=",
        b"a=1\na=2\n",
        b"yarn.scheduler.capacity.root.queues=a\nyarn.scheduler.capacity.root.a.capacity=[memory=1,vcores=1]",
        b"yarn.scheduler.capacity.root.queues=a\nyarn.scheduler.capacity.root.b.c.maximum-capacity=[memory=1,vcores=1]",
    ];
    for &text in &texts {
        for &kind in &KINDS {
            for &line in &[0, 1, 2, 3, usize::MAX] {
                assert!(rt; !words(rt.alloc(), text, line, kind).is_empty());
            }
        }
    }
}

/// A list of so many queues below `root`.
fn many(alloc: Global, count: usize) -> Result<Vec<u8>, AllocError> {
    let mut text = Vec::from_slice(alloc, b"yarn.scheduler.capacity.root.queues=q")?;
    for number in 1..count {
        text.extend_from_slice(format!(in alloc; ",{number}")?.as_bytes())?;
    }
    Ok(text)
}

/// How many lines the table of so many queues below `root` has. `None` if it is not made.
fn lines_of_table(alloc: Global, count: usize) -> Option<usize> {
    let text = many(alloc, count).ok()?;
    let config = read_config(alloc, &text).ok()?;
    let table = queue_table(alloc, &config).ok()?;
    Some(table.as_str().lines().count())
}

#[test]
fn queues_up_to_the_limit_have_a_line_each(rt: HostRuntime) {
    assert!(rt; lines_of_table(rt.alloc(), 1023) == Some(1028));
}

/// Whether the words of the fault of an unknown key begin so.
fn says(alloc: Global, words: &str) -> Option<bool> {
    let fault = read_config(alloc, b"x=1").err()?;
    let shown = format!(in alloc; "{fault}").ok()?;
    let is_unknown = fault.kind == ConfigFaultKind::UnknownKey;
    Some(is_unknown && shown.as_str().starts_with(words))
}

#[test]
fn a_fault_says_what_to_mend(rt: HostRuntime) {
    let words = "line 1: no such property: a queue has yarn.scheduler.capacity.<queue-path>";
    assert!(rt; says(rt.alloc(), words) == Some(true));
}
