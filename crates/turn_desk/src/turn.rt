// A turn, and what is known of turns, as plain data.
use std::collections::LinkedList;

/// The time of a state's disk, and how many faults it had. No value of it is made.
pub struct Stamp {
    pub time: u64,
    pub faults: u64,
}

/// One turn. No value of it is made.
pub struct Turn<O, A, E> {
    /// The number of the pass that took it.
    pub pass: u64,
    /// How many turns came before it.
    pub rank: u64,
    /// How many entries the history had before it.
    pub place: u64,
    pub before: Stamp,
    pub op: O,
    pub answer: A,
    /// The entries that it appended.
    pub events: LinkedList<E>,
    pub after: Stamp,
}

/// What the turns begin from: what the state showed when the desk was made. No value of it is made.
pub struct Given<T, E> {
    pub start: T,
    pub entries: LinkedList<E>,
    pub mark: Stamp,
}

/// What one caller of a desk knows. No value of it is made.
pub struct Sight<T, O, A, E> {
    pub given: Given<T, E>,
    /// The number under which it takes turns.
    pub number: u64,
    /// The first turns of all, up to the caller's last one at least.
    pub seen: LinkedList<Turn<O, A, E>>,
    /// Its own turns.
    pub own: LinkedList<Turn<O, A, E>>,
}
