//! What tests of several kinds of containers are played on. Clauses name it, and are there without the tests, too.

use shared_containers::bag::Bag;
use shared_containers::queue::Queue;
use shared_containers::stack::Stack;

/// A container of any kind. A bag has two places besides its overflow.
pub enum Any {
    Stack(Stack<u64>),
    Queue(Queue<u64>),
    Bag(Bag<u64, 2>),
}
