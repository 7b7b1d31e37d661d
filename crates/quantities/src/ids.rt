// Small numbers that name something, counted from 0: the places of tasks, the locks, the queues.
ghost use Rattle.std.specs.Prelude.{◌≡◌, ◌+◌, ◌-◌, ◌<◌, ◌≤◌, MatchOption, MatchResult, ⊤};
ghost use Rattle.std.specs.Iterator.{at_most};

use crate::range::OutOfRange;
use std::alloc::AllocError;
use std::marker::PhantomData;

// The place of a task.
pub type TaskId = Id<Task, 64>;

// A lock.
pub type LockId = Id<Lock, 64>;

// A queue: one for each lock, or one for each rank.
pub type QueueId = Id<Queue, 64>;

// A place in the order of fixed tasks, of which 0 goes first.
pub type Rank = Id<Order, 16>;

// What a number may name. There are no values of these, only names.
pub enum Task {}

pub enum Lock {}

pub enum Queue {}

pub enum Order {}

// The name of one of N things, which are of the sort K.
#[derive_where(PartialEq, Eq, Debug)]
pub struct Id<K, const N: u8> {
    index: u8,
    of: PhantomData<K>,
    ghost within: { index < N },
}

// By hand, since a derive would ask for a copy of K, of which there is none.
impl<K, const N: u8> Clone for Id<K, N> {
    ghost is_clone = { λ x y. y ≡ x };

    ghost is_infallible = { λ _. ⊤ };

    fn clone(&self) -> Result<Self, AllocError> {
        Ok(*self)
    }
}

impl<K, const N: u8> Copy for Id<K, N> {}

impl<K, const N: u8> TryFrom<u32> for Id<K, N> {
    type Error = OutOfRange;

    ghost try_from_gives = { λ number r. MatchResult r (λ t. (t.index ≡ number) × (number < N)) (λ _. N ≤ number) };

    fn try_from(number: u32) -> Result<Self, OutOfRange> {
        if number >= u32::from(N) {
            return Err(OutOfRange);
        }
        // `as` after the test: a conversion would test once more.
        Ok(Id {
            index: number as u8,
            of: PhantomData,
        })
    }
}

impl<K, const N: u8> From<Id<K, N>> for u32 {
    ghost from_gives = { λ i number. (number ≡ i.index) × (number < N) };

    fn from(i: Id<K, N>) -> u32 {
        u32::from(i.index)
    }
}

// Three conversions and no more: one from any sort to any other would let a task become a lock.

// The queue of those who wait for the lock.
impl From<LockId> for QueueId {
    ghost from_gives = { λ lock queue. queue.index ≡ lock.index };

    fn from(lock: LockId) -> QueueId {
        Id {
            index: lock.index,
            of: PhantomData,
        }
    }
}

// The lock for which the members of the queue wait, where the queues are those of locks.
impl From<QueueId> for LockId {
    ghost from_gives = { λ queue lock. lock.index ≡ queue.index };

    fn from(queue: QueueId) -> LockId {
        Id {
            index: queue.index,
            of: PhantomData,
        }
    }
}

// The queue of those who take turns in the rank.
impl From<Rank> for QueueId {
    ghost from_gives = { λ rank queue. queue.index ≡ rank.index };

    fn from(rank: Rank) -> QueueId {
        Id {
            index: rank.index,
            of: PhantomData,
        }
    }
}

impl<K, const N: u8> Id<K, N> {
    // As a place in an array, by the name that the field's arenas give it: an array is read at each second line.
    pub fn index(self) -> usize
        ensures value { result ≡ self.index }
        ensures bound { result < N }
    {
        usize::from(self.index)
    }

    // All of them, in the order of their numbers.
    pub fn all() -> Ids<K, N>
        ensures { result.next ≡ 0 }
    {
        Ids {
            next: 0,
            of: PhantomData,
        }
    }
}

// Hands out the names from a number on.
#[derive(Drop)]
pub struct Ids<K, const N: u8> {
    next: u8,
    of: PhantomData<K>,
    ghost within: { next ≤ N },
}

impl<K, const N: u8> Iterator for Ids<K, N> {
    type Item = Id<K, N>;

    ghost remaining = { λ s. at_most (N - s.next) };

    ghost next_gives = { λ s r t. MatchOption r ((s.next ≡ N) × (t.next ≡ N)) (λ i. (i.index ≡ s.next) × (t.next ≡ s.next + 1)) };

    fn next(&mut self) -> Option<Id<K, N>> {
        if self.next >= N {
            return None;
        }
        let index = self.next;
        self.next += 1;
        Some(Id {
            index,
            of: PhantomData,
        })
    }
}
