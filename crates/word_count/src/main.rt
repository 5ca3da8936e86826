//! Counts the words of standard input, in a tree as an ordered map.
#![tactic(auto)]

use ordered_index::{Text, TreeIndex};
use std::alloc::{AllocError, Global};
use std::io;
use std::ops::Bound;

type Counts = TreeIndex<Text, u64>;

// Counts one more of a word.
fn count_word(alloc: Global, counts: &mut Counts, word: &str) -> Result<(), AllocError> {
    let key = Text::new(alloc, word)?;
    let count = counts.peek(&key).copied().unwrap_or(0).saturating_add(1);
    match counts.upsert_sync(key, count) {
        Ok(()) => Ok(()),
        Err(_) => Err(AllocError),
    }
}

// Counts the words of the input.
fn count_all<R: Input>(rt: &R, alloc: Global, counts: &mut Counts) -> io::Result<()> {
    for line in rt.lines(alloc) {
        let line = line?;
        for word in line.as_str().split_whitespace() {
            count_word(alloc, counts, word)?;
        }
    }
    Ok(())
}

// Prints the words from one on.
fn show_from<'a, R: Print>(rt: &R, counts: &'a Counts, from: &'a Text) -> io::Result<()> {
    for (word, count) in counts.range(Bound::Included(from), Bound::Unbounded) {
        println!(rt; "{word} {count}")?;
    }
    Ok(())
}

fn main(rt: HostRuntime) -> io::Result<()> {
    let alloc = rt.alloc();
    let mut counts = Counts::new(alloc);
    count_all(&rt, alloc, &mut counts)?;
    let from = Text::new(alloc, "m")?;
    show_from(&rt, &counts, &from)?;
    counts.remove_range_sync(Bound::Unbounded, Bound::Excluded(&from));
    let words = counts.len();
    println!(rt; "{words} left")
}
