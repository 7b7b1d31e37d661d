// The queues as links between neighbours, in one array of members and one of ends.
// A queue is a ring through nobody, who comes after the last member and before the first.
// Contracts speak of all queues that the links stand for, which are functions from numbers, and no model's value may be that.
ghost use Rattle.std.specs.Prelude.{◌≡◌, ℕ, false, List, [], ◌∷◌, ◌++◌, is_some};
ghost use Rattle.queues.specs.Members.{Free, rest, put};
ghost use Rattle.queues.specs.Rings.{Holds, spot, packed, link_of, ends_of};
ghost use Rattle.queues.specs.Writes.{set_after, set_before, joined, appended, unlinked};
ghost use Rattle.queues.specs.Outcomes.{First, StandsIn, Pushed, Removed, Moved};

use crate::packed::Packed;
use quantities::ids::{Queue, QueueId, Task, TaskId};

// Who stands behind a member, who stands before it, and in which queue. Unless it stands in one, the neighbours mean nothing.
// The links are an arena in fixed memory, since nothing here may use a heap.
#[derive(Clone, Copy)]
struct Link {
    next: Packed<Task>,
    prev: Packed<Task>,
    at: Packed<Queue>,
}

// Who stands first in a queue, and who last.
#[derive(Clone, Copy)]
struct Ends {
    head: Packed<Task>,
    tail: Packed<Task>,
}

#[derive(Drop)]
pub struct Queues {
    links: [Link; 64],
    ends: [Ends; 64],
}

// Whether something was done is a bool, as the library's sets have it.
impl Queues {
    // All are empty.
    pub fn new() -> Self
        ensures { Holds result (λ _. []) }
    {
        Queues {
            links: [Link {
                next: None.into(),
                prev: None.into(),
                at: None.into(),
            }; 64],
            ends: [Ends {
                head: None.into(),
                tail: None.into(),
            }; 64],
        }
    }

    // The first of the queue.
    pub fn front(&self, q: QueueId) -> Option<TaskId>
        ensures { (f : ℕ → List ℕ) → Holds self.now f → First (f q.index) result }
    {
        self.ends(q).head.get()
    }

    // Who stands right behind i.
    pub fn next(&self, i: TaskId) -> Option<TaskId>
        ensures behind { (f : ℕ → List ℕ) → Holds self.now f → (q : ℕ) (xs ys : List ℕ) → f q ≡ xs ++ (i.index ∷ ys) → First ys result }
        ensures free { (f : ℕ → List ℕ) → Holds self.now f → Free f i.index → is_some result ≡ false }
    {
        let link = self.link(i);
        link.at.get().and(link.next.get())
    }

    // The queue in which i stands.
    pub fn queue_of(&self, i: TaskId) -> Option<QueueId>
        ensures { (f : ℕ → List ℕ) → Holds self.now f → StandsIn f i.index result }
    {
        self.link(i).at.get()
    }

    // Puts i last, unless it stands in a queue already.
    pub fn push_back(&mut self, q: QueueId, i: TaskId) -> bool
        ensures after { (f : ℕ → List ℕ) → Holds self.old f → Pushed self.new f q.index i.index result }
        ensures same { result ≡ false → self.new ≡ self.old }
    {
        if self.queue_of(i).is_some() {
            return false;
        }
        self.append(q, i);
        true
    }

    // Takes the first out.
    pub fn pop_front(&mut self, q: QueueId) -> Option<TaskId>
        ensures value { (f : ℕ → List ℕ) → Holds self.old f → First (f q.index) result }
        ensures after { (f : ℕ → List ℕ) → Holds self.old f → Holds self.new (put q.index (rest (f q.index)) f) }
        ensures same { is_some result ≡ false → self.new ≡ self.old }
    {
        let i = self.front(q)?;
        self.unlink(q, i);
        Some(i)
    }

    // Takes i out of its queue, if it stands in one.
    pub fn remove(&mut self, i: TaskId) -> bool
        ensures after { (f : ℕ → List ℕ) → Holds self.old f → Removed self.new f i.index result }
        ensures same { result ≡ false → self.new ≡ self.old }
    {
        let Some(q) = self.queue_of(i) else {
            return false;
        };
        self.unlink(q, i);
        true
    }

    // Puts i last in its own queue, if it stands in one.
    pub fn move_to_back(&mut self, i: TaskId) -> bool
        ensures after { (f : ℕ → List ℕ) → Holds self.old f → Moved self.new f i.index result }
        ensures same { result ≡ false → self.new ≡ self.old }
    {
        let Some(q) = self.queue_of(i) else {
            return false;
        };
        self.unlink(q, i);
        self.append(q, i);
        true
    }

    fn link(&self, i: TaskId) -> Link
        ensures { result ≡ link_of self.now i.index }
    {
        self.links[i.index()]
    }

    fn ends(&self, q: QueueId) -> Ends
        ensures { result ≡ ends_of self.now q.index }
    {
        self.ends[q.index()]
    }

    // i, who stands in no queue, becomes the last of q.
    fn append(&mut self, q: QueueId, i: TaskId)
        ensures { self.new ≡ appended q i self.old }
    {
        let last = self.ends(q).tail.get();
        self.join(q, last, Some(i));
        self.join(q, Some(i), None);
        self.links[i.index()].at = Some(q).into();
    }

    // Takes i out of q, in which it stands.
    fn unlink(&mut self, q: QueueId, i: TaskId)
        ensures { self.new ≡ unlinked q.index i.index self.old }
    {
        let link = self.link(i);
        self.join(q, link.prev.get(), link.next.get());
        self.links[i.index()].at = None.into();
    }

    // Makes b follow a in the ring of q.
    fn join(&mut self, q: QueueId, a: Option<TaskId>, b: Option<TaskId>)
        ensures { self.new ≡ joined q.index (packed a) (packed b) self.old }
    {
        self.set_next(q, a, b);
        self.set_prev(q, b, a);
    }

    // This and the next write different fields: one function with the field as a closure is no plainer.
    fn set_next(&mut self, q: QueueId, a: Option<TaskId>, b: Option<TaskId>)
        ensures { self.new ≡ set_after q.index (spot a) (packed b) self.old }
    {
        match a {
            Some(i) => self.links[i.index()].next = b.into(),
            None => self.ends[q.index()].head = b.into(),
        }
    }

    fn set_prev(&mut self, q: QueueId, b: Option<TaskId>, a: Option<TaskId>)
        ensures { self.new ≡ set_before q.index (spot b) (packed a) self.old }
    {
        match b {
            Some(i) => self.links[i.index()].prev = a.into(),
            None => self.ends[q.index()].tail = a.into(),
        }
    }
}
