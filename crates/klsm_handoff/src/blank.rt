//! The two ends are made together, in two steps, so that the second one takes no memory.
ghost use Rattle.std.specs.Prelude.{◌≡◌, []};
ghost use Rattle.rtrb.specs.Ring.{sent, received, known_free, producer_capacity, IsPair};
ghost use Rattle.klsm_handoff.specs.Ends.{giver_terms, taker_terms, HasTaken};

use crate::Terms;
use crate::giver::Giver;
use crate::known::Known;
use crate::letter::{Law, Letter};
use crate::taker::Taker;
use rtrb::{Consumer, Producer, RingBuffer};
use std::alloc::{AllocError, Allocator, Global};

/// A hand-off on which nothing is agreed yet. It has all the memory that it needs.
#[derive(Drop)]
pub struct Blank<T, K: Terms<T>, A: Allocator = Global> {
    producer: Producer<Letter<T, K>, A, Law<K>>,
    consumer: Consumer<Letter<T, K>, A, Law<K>>,
    ghost pair: { IsPair producer consumer },
    ghost unsent: { sent producer ≡ [] },
    ghost unreceived: { received consumer ≡ [] },
    ghost room: { known_free producer ≡ 1 },
    ghost places: { producer_capacity producer ≡ 1 },
}

impl<T: Drop, K: Terms<T>, A: Allocator + Copy> Blank<T, K, A> {
    /// A hand-off on which nothing is agreed yet. It costs two growths.
    pub fn new(alloc: A) -> Result<Self, AllocError> {
        let (producer, consumer) = RingBuffer::<Letter<T, K>>::with_protocol::<A, Law<K>>(
            alloc, 1,
        )?;
        Ok(Blank { producer, consumer })
    }

    /// The two ends of a hand-off on these terms. It takes no memory.
    pub fn agree(self, terms: &K) -> (Giver<T, K, A>, Taker<T, K, A>)
        ensures giver { giver_terms result.0 ≡ terms.now }
        ensures taker { taker_terms result.1 ≡ terms.now }
        ensures untaken { ¬ HasTaken result.1 }
    {
        let Blank {
            mut producer,
            mut consumer,
        } = self;
        // The terms go through first, so that both ends know that they did.
        producer.push_reserved(Letter::Agreed(Known::of(terms)));
        consumer.slots_beside(&mut producer);
        let Letter::Agreed(agreed) = consumer.pop_known() else {
            unreachable!()
        };
        producer.slots_beside(&mut consumer);
        let giver = Giver {
            producer,
            terms: Known::of(terms),
        };
        let taker = Taker {
            consumer,
            terms: agreed,
        };
        (giver, taker)
    }
}
