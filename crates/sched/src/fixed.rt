// Fixed tasks: by rank, and within a rank in turn.
ghost use Rattle.std.specs.Prelude.{◌≡◌, ℕ, ◌<◌, true, false, List, [], ◌∷◌, ◌++◌};
ghost use Rattle.queues.specs.Rings.{Holds};
ghost use Rattle.sched.specs.House.{House, Place, empty, is_fixed, without, put, in_turn, rank_wants};
ghost use Rattle.sched.specs.Promise.{times};
ghost use Rattle.sched.specs.Stores.{TurnOf, owner_of, task_place};
ghost use Rattle.sched.specs.Midtick.{WantsOf, asking, fixed_wants, FirstInTurn};
ghost use Rattle.sched.specs.Turns.{OnceInTurn, turn_after};

use crate::class::Class;
use crate::promise::Promise;
use crate::tasks::Tasks;
use crate::wants::Wants;
use quantities::ids::{QueueId, Rank, TaskId};
use queues::Queues;

#[derive(Drop)]
pub struct Fixed {
    // a queue for each rank: in front the task whose last tick, or whose making, is the longest ago
    turn: Queues,
}

impl Fixed {
    pub fn new() -> Fixed
        ensures { TurnOf result empty.place empty.turn }
    {
        Fixed {
            turn: Queues::new(),
        }
    }

    // A new fixed task is the last of its rank.
    pub fn made(&mut self, i: TaskId, promise: Promise)
        ensures { (place : ℕ → Place) (turn : List ℕ) → TurnOf self.old place turn → times i.index turn ≡ 0 → TurnOf self.new (put i.index (task_place promise) place) (turn ++ (i.index ∷ [])) }
    {
        if let Promise::Fixed(rank) = promise {
            let _pushed = self.turn.push_back(QueueId::from(rank), i);
        }
    }

    pub fn ended(&mut self, i: TaskId)
        ensures { (place : ℕ → Place) (turn : List ℕ) (p : Place) → TurnOf self.old place turn → is_fixed p ≡ false → TurnOf self.new (put i.index p place) (without i.index turn) }
    {
        let _removed = self.turn.remove(i);
    }

    // A fixed task whose tick it was is the last of its rank, whoever ran in it.
    pub fn pass(&mut self, whose: Option<TaskId>)
        ensures { (place : ℕ → Place) (turn : List ℕ) → TurnOf self.old place turn → OnceInTurn place turn → TurnOf self.new place (turn_after (owner_of whose) place turn) }
    {
        if let Some(i) = whose {
            let _moved = self.turn.move_to_back(i);
        }
    }

    // The first of a rank that wants the tick, among as many as there can be: that the queue ends is known only of one that
    // stands for some tasks, and a loop has to end anyway.
    fn first_wanting(&self, rank: Rank, wants: &Wants) -> Option<TaskId>
        ensures { (f : ℕ → List ℕ) (h : House) → Holds self.now.turn f → WantsOf wants.now h → owner_of result ≡ in_turn (asking h) (f rank.index) }
    {
        let mut at = self.turn.front(QueueId::from(rank));
        for step in 0..64u32 {
            let i = at?;
            if wants.of(i) {
                return Some(i);
            }
            at = self.turn.next(i);
        }
        None
    }
}

impl Class for Fixed {
    ghost stands = { λ s h. TurnOf s h.place h.turn × OnceInTurn h.place h.turn };

    ghost asks = { fixed_wants };

    ghost owed = { FirstInTurn };

    // The first rank of which one wants the tick, and of these the one whose last tick, or making, is the longest ago.
    fn candidate(&self, _tasks: &Tasks, wants: &Wants) -> Option<TaskId> {
        for rank in Rank::all() {
            let first = self.first_wanting(rank, wants);
            if first.is_some() {
                return first;
            }
        }
        None
    }
}
