//! Arrays of texts, and the iterators over their slots.

use leaf_array::{Array, ArrayIter, ArrayRevIter, InsertResult, RemoveResult};

/// An array of texts, each its own value.
type Texts = Array<&'static str, &'static str>;

/// A text that comes first, one that comes last, and the numbers in their order as texts.
const TEXTS: &[&str] = &[
    "M", "G", "0", "1", "2", "3", "4", "5", "6", "7", "8", "9", "10", "11", "12",
];

/// An array of these texts.
fn texts(all: &[&'static str]) -> Texts {
    let mut array = Array::new();
    for text in all {
        let _inserted = array.insert::<false>(*text, *text);
    }
    array
}

/// Whether an insertion that gives its pair back finds a duplicate, or no place.
fn repeats(array: &mut Texts, text: &'static str) -> Option<bool> {
    let (key, val, repeated) = match array.insert::<false>(text, text) {
        InsertResult::Success => return None,
        InsertResult::Duplicate(key, val) => (key, val, true),
        InsertResult::Full(key, val) => (key, val, false),
    };
    if key == text && val == text {
        Some(repeated)
    } else {
        None
    }
}

/// The answer to a removal of a text, if this is its value.
fn remove(array: &mut Texts, text: &'static str, wanted: &'static str) -> RemoveResult {
    array.remove_if(&text, |value| *value == wanted)
}

/// Whether each of these texts is removed.
fn loses(array: &mut Texts, gone: &[&'static str]) -> bool {
    let mut removed = true;
    for text in gone {
        removed = remove(array, *text, *text) == RemoveResult::Success && removed;
    }
    removed
}

/// Whether the pair of a text is the text twice, if there is one.
fn is_itself(array: &Texts, text: &'static str) -> Option<bool> {
    match array.search_entry(&text) {
        Some((key, val)) => Some(*key == text && *val == text),
        None => None,
    }
}

/// The slots of an iterator by rising rank, each a hexadecimal digit.
fn rising(array: &Texts) -> u64 {
    let mut slots: u64 = 0;
    for slot in ArrayIter::new(array) {
        slots = slots.wrapping_mul(16).wrapping_add(u64::from(slot));
    }
    slots
}

/// The slots of an iterator by falling rank.
fn falling(array: &Texts) -> u64 {
    let mut slots: u64 = 0;
    for slot in ArrayRevIter::new(array) {
        slots = slots.wrapping_mul(16).wrapping_add(u64::from(slot));
    }
    slots
}

#[test]
fn text_keys_are_ordered_as_text(rt: HostRuntime) {
    let mut array = texts(TEXTS);
    // a full array gives a pair back, and keeps what a removal isn't to take
    let back = repeats(&mut array, "13") == Some(false);
    let spared = remove(&mut array, "0", "1") == RemoveResult::Fail;
    let absent = remove(&mut array, "13", "13") == RemoveResult::Fail;
    assert!(rt; back && spared && absent && array.len() == 15);
    let gone = loses(&mut array, &["10", "11", "12", "G", "M"]);
    // the slots of "0" to "9"
    let ranked = rising(&array) == 0x3056749AB8 && falling(&array) == 0x8BA9476503;
    // no place is free yet
    let repeated = repeats(&mut array, "1") == Some(true);
    let refused = repeats(&mut array, "100") == Some(false);
    let found = is_itself(&array, "7") == Some(true) && is_itself(&array, "10").is_none();
    assert!(rt; gone && ranked && repeated && refused && found && array.len() == 10);
}

#[test]
fn iterators_pass_over_what_was_removed(rt: HostRuntime) {
    let mut array = texts(&["10", "20", "30"]);
    let gone = loses(&mut array, &["20"]);
    assert!(rt; gone && rising(&array) == 0x13 && falling(&array) == 0x31);
}
