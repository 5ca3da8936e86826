//! What tests of both kinds of lists are played on. Clauses name it, and are there without the tests, too.

use world_containers::queue::Queue;
use world_containers::stack::Stack;

/// A stack or a queue.
pub enum Line<T> {
    Stack(Stack<T>),
    Queue(Queue<T>),
}
