// Somebody or nobody in one byte, where an option takes two: an option is read of it, and made into it.
ghost use Rattle.std.specs.Prelude.{◌≡◌, ◌≤◌, ⊤};

use quantities::ids::Id;
use std::alloc::AllocError;
use std::marker::PhantomData;

// The number of an id, or 64 for none.
pub struct Packed<K> {
    number: u8,
    of: PhantomData<K>,
    ghost within: { number ≤ 64 },
}

// By hand, as for an id.
impl<K> Clone for Packed<K> {
    ghost is_clone = { λ x y. y ≡ x };

    ghost is_infallible = { λ _. ⊤ };

    fn clone(&self) -> Result<Self, AllocError> {
        Ok(*self)
    }
}

impl<K> Copy for Packed<K> {}

impl<K> Packed<K> {
    ghost use Rattle.queues.specs.Rings.{packed};

    pub fn get(self) -> Option<Id<K, 64>>
        ensures { packed result ≡ self }
    {
        Id::try_from(u32::from(self.number)).ok()
    }
}

impl<K> From<Option<Id<K, 64>>> for Packed<K> {
    ghost use Rattle.queues.specs.Rings.{packed};

    ghost from_gives = { λ whom p. p ≡ packed whom };

    fn from(whom: Option<Id<K, 64>>) -> Packed<K> {
        let number = match whom {
            Some(i) => i.index() as u8,
            None => 64,
        };
        Packed {
            number,
            of: PhantomData,
        }
    }
}
