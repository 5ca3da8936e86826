//! What threads share, and what is handed from one to another.

use shared_index::{Book, Naming, SharedIndex};

// Threads share an index, for keys and values that they share and hand over.
fn index_is_shared<
    'd,
    L: Naming + Send + Sync,
    K: Clone + Ord + Send + Sync,
    V: Clone + Eq + Send + Sync,
    const S: usize,
>(index: &SharedIndex<'d, L, K, V, S>) {
    is_sync(index)
}

// And a book is handed over.
fn book_is_handed_over<
    L: Naming + Send + Sync,
    K: Clone + Ord + Send + Sync,
    V: Clone + Eq + Send + Sync,
    const S: usize,
>(book: Book<L, K, V, S>) -> Book<L, K, V, S> {
    is_send(book)
}

fn is_sync<T: Sync>(_x: &T) {}

fn is_send<T: Send>(x: T) -> T {
    x
}
