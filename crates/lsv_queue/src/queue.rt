//! The queue and its passes.

ghost use Rattle.std.specs.Prelude.{◌≡◌, ◌+◌, ◌≤◌, ◌<◌, ℕ, [], ◌∷◌, ◌++◌, true, false, Some, None, length, List, IfOk, OnErr, MatchResult, MatchOption};
ghost use Rattle.crossbeam_queue.specs.Fifo.{Held};
ghost use Rattle.crossbeam_queue.specs.Passes.{ruled_capacity};
ghost use Rattle.lsv_queue.specs.Order.{sent, taken, sender, receiver, one_more, after_body, after_taking, after_joining, KnowsAll, IsClosed, marks_of, HoldsRest};
ghost use Rattle.lsv_queue.specs.Passes.{known, GapSeen, QueueSeen, Sender, Receiver, list_of, taken_of, items_of};

use crate::rule::{InOrder, Joins, Makes, Puts, Roles, Takes};
use crate::view::{Letter, View};
use crossbeam_queue::{Pass, RuledArrayQueue};
use lsv_base::NoMem;
use lsv_session::Full;
use std::alloc::Global;
use std::marker::Model;
use std::snapshot::Snapshot;
use std::sync::Wait;

type Ring<T> = RuledArrayQueue<Letter<T>, View<T>, InOrder>;

/// A queue of at most `capacity` letters, which threads share. Contracts see its name, by which passes are its own, and
/// its capacity.
#[derive(Drop)]
pub struct Queue<T: Drop> {
    ring: Ring<T>,
}

impl<T: Drop> Model for Queue<T> {
    ghost Value = { QueueSeen };

    ghost view = { λ q. record { name = q.ring.table.shared.table_id; capacity = ruled_capacity q.ring } };
}

/// A sender's pass: its right to put, and what it has put. Each sender of a queue has a number of its own, from 0 on.
#[derive(Drop)]
pub struct InPass<T> {
    pass: Pass<Letter<T>, View<T>>,
    number: u32,
    made: u32,
}

impl<T> Model for InPass<T> {
    ghost Value = { Sender T };

    ghost view = { λ p. record { queue = p.pass.table_id; list = list_of (known p.pass).list } };

    ghost invariant = { λ p. (p.pass.me.1 ≡ []) × (known p.pass ≡ sender (list_of (known p.pass).list)) × ((list_of (known p.pass).list).number ≡ p.number) × ((list_of (known p.pass).list).made ≡ p.made) };
}

/// The receiver's pass: its right to take, and what it has taken.
#[derive(Drop)]
pub struct OutPass<T> {
    pass: Pass<Letter<T>, View<T>>,
    count: u64,
    marks: u32,
}

impl<T> Model for OutPass<T> {
    ghost Value = { Receiver T };

    ghost view = { λ p. record { queue = p.pass.table_id; taken = taken_of (known p.pass).taken } };

    ghost invariant = { λ p. (p.pass.me.1 ≡ []) × (known p.pass ≡ receiver (taken_of (known p.pass).taken)) × (p.count ≡ length (items_of (taken_of (known p.pass).taken).got)) × (p.marks ≡ marks_of (taken_of (known p.pass).taken).got) };
}

/// Says that a queue was found empty, which one, and how many items its receiver had taken by then. `get` alone makes one.
#[derive(Drop)]
pub struct Gap<T> {
    at: u64,
    /// The receiver's pass, as clauses see it.
    pass: Snapshot<OutPass<T>>,
}

impl<T> Model for Gap<T> {
    ghost Value = { GapSeen };

    ghost view = { λ g. record { queue = g.pass.value.queue; at = g.at } };
}

impl<T> Gap<T> {
    /// How many items the receiver had taken by then; end marks don't count.
    pub fn at(&self) -> u64
        ensures at { result ≡ self.now.at }
    {
        self.at
    }
}

impl<T> OutPass<T> {
    fn gap(&self) -> Gap<T>
        ensures at { result ≡ record { queue = self.now.queue; at = length (items_of self.now.taken.got) } }
    {
        Gap {
            at: self.count,
            pass: Snapshot::of(self),
        }
    }

    /// The number of end marks that the receiver has met.
    pub fn ended(&self) -> u32
        ensures marks { result ≡ marks_of self.now.taken.got }
    {
        self.marks
    }
}

/// Makes a queue for 1 to 1,024 letters, with the first sender's pass, of number 0, and the receiver's.
pub fn make<T: Drop>(
    alloc: Global,
    capacity: usize,
) -> Result<(Queue<T>, InPass<T>, OutPass<T>), NoMem>
    requires capacity { (0 < capacity) × (capacity ≤ 1024) }
    ensures queue { IfOk result (λ r. r.0.capacity ≡ capacity) }
    ensures first { IfOk result (λ r. (r.1.queue ≡ r.0.name) × (r.1.list ≡ sent 0 1 [] false)) }
    ensures receiver { IfOk result (λ r. (r.2.queue ≡ r.0.name) × (r.2.taken ≡ taken [] [])) }
{
    let Ok((ring, mut pass)) = Ring::ruled(alloc, capacity) else {
        return Err(NoMem);
    };
    let other = ring.another::<Roles>(&mut pass);
    let first = InPass {
        pass,
        number: 0,
        made: 1,
    };
    let receiver = OutPass {
        pass: other,
        count: 0,
        marks: 0,
    };
    Ok((Queue { ring }, first, receiver))
}

impl<T: Drop> Queue<T> {
    /// A new sender's pass, with the next number and nothing put. `first` is the pass of number 0.
    pub fn split(&self, first: &mut InPass<T>) -> Result<InPass<T>, NoMem>
        requires queue { first.old.queue ≡ self.now.name }
        requires first { first.old.list.number ≡ 0 }
        ensures queue { first.new.queue ≡ first.old.queue }
        ensures first { MatchResult result (λ _. first.new.list ≡ one_more first.old.list) (λ _. first.new.list ≡ first.old.list) }
        ensures new { IfOk result (λ p. (p.queue ≡ self.now.name) × (p.list ≡ sent first.old.list.made 0 [] false)) }
    {
        let number = first.made;
        if number == u32::MAX {
            return Err(NoMem);
        }
        let pass = self.ring.another::<Makes>(&mut first.pass);
        first.made = number + 1;
        Ok(InPass {
            pass,
            number,
            made: 0,
        })
    }

    /// Puts an item at the end of the sender's list. A full queue gives it back.
    pub fn put<R: Wait>(&self, rt: &R, pass: &mut InPass<T>, v: T) -> Result<(), (T, Full)>
        requires queue { pass.old.queue ≡ self.now.name }
        requires going { pass.old.list.ended ≡ false }
        ensures queue { pass.new.queue ≡ pass.old.queue }
        ensures put { MatchResult result (λ _. pass.new.list ≡ after_body (Some v) pass.old.list) (λ e. (e.0 ≡ v) × (pass.new.list ≡ pass.old.list)) }
        ensures full { OnErr result (Held self.now.capacity (HoldsRest (sender pass.old.list))) }
    {
        let letter = Letter {
            from: pass.number,
            body: Some(v),
        };
        match self.ring.push_as::<Puts, R>(rt, &mut pass.pass, letter) {
            Ok(()) => Ok(()),
            Err(Letter { body: Some(v), .. }) => Err((v, Full)),
            Err(Letter { body: None, .. }) => unreachable!(),
        }
    }

    /// Ends the sender's list by an end mark. A full queue takes none.
    pub fn end<R: Wait>(&self, rt: &R, pass: &mut InPass<T>) -> Result<(), Full>
        requires queue { pass.old.queue ≡ self.now.name }
        requires going { pass.old.list.ended ≡ false }
        ensures queue { pass.new.queue ≡ pass.old.queue }
        ensures end { MatchResult result (λ _. pass.new.list ≡ after_body None pass.old.list) (λ _. pass.new.list ≡ pass.old.list) }
        ensures full { OnErr result (Held self.now.capacity (HoldsRest (sender pass.old.list))) }
    {
        let letter = Letter {
            from: pass.number,
            body: None,
        };
        match self.ring.push_as::<Puts, R>(rt, &mut pass.pass, letter) {
            Ok(()) => Ok(()),
            Err(_) => Err(Full),
        }
    }

    /// Takes the next letter. It never returns if a count would pass its type's end.
    fn next<R: Wait>(&self, rt: &R, pass: &mut OutPass<T>) -> Option<Letter<T>>
        requires queue { pass.old.queue ≡ self.now.name }
        ensures queue { pass.new.queue ≡ pass.old.queue }
        ensures next { MatchOption result (pass.new.taken ≡ pass.old.taken) (λ l. pass.new.taken ≡ after_taking l pass.old.taken) }
        ensures known { MatchOption result (KnowsAll pass.new.taken []) (λ l. (rest : List (Letter T)) × KnowsAll pass.new.taken rest) }
        ensures closed { IsClosed pass.old.taken → result ≡ None }
    {
        if pass.count == u64::MAX || pass.marks == u32::MAX {
            for _ in rt.forever() {}
            unreachable!()
        }
        match self.ring.pop_as::<Takes, R>(rt, &mut pass.pass) {
            None => None,
            Some(
                Letter {
                    from,
                    body: Some(v),
                },
            ) => {
                pass.count += 1;
                Some(Letter {
                    from,
                    body: Some(v),
                })
            }
            Some(Letter { from, body: None }) => {
                pass.marks += 1;
                Some(Letter { from, body: None })
            }
        }
    }

    /// Takes the next item, past end marks. A `Gap` says that the queue was empty.
    pub fn get<R: Wait>(&self, rt: &R, pass: &mut OutPass<T>) -> Result<T, Gap<T>>
        requires queue { pass.old.queue ≡ self.now.name }
        ensures queue { pass.new.queue ≡ pass.old.queue }
        ensures joined { pass.new.taken.joined ≡ pass.old.taken.joined }
        ensures got { (marks : List (Letter T)) × (items_of marks ≡ []) × MatchResult result (λ x. (from : ℕ) × (pass.new.taken.got ≡ (pass.old.taken.got ++ marks) ++ record { from = from; body = Some x } ∷ [])) (λ g. pass.new.taken.got ≡ pass.old.taken.got ++ marks) }
        ensures items { MatchResult result (λ x. items_of pass.new.taken.got ≡ items_of pass.old.taken.got ++ x ∷ []) (λ _. items_of pass.new.taken.got ≡ items_of pass.old.taken.got) }
        ensures gap { MatchResult result (λ _. Unit {0}) (λ g. g ≡ record { queue = self.now.name; at = length (items_of pass.new.taken.got) }) }
        ensures known { MatchResult result (λ _. (rest : List (Letter T)) × KnowsAll pass.new.taken rest) (λ _. KnowsAll pass.new.taken []) }
        ensures closed { IsClosed pass.old.taken → MatchResult result (λ _. ⊥) (λ _. pass.new.taken ≡ pass.old.taken) }
    {
        for _ in rt.forever() {
            match self.next(rt, pass) {
                None => return Err(pass.gap()),
                Some(Letter { body: Some(v), .. }) => return Ok(v),
                Some(Letter { body: None, .. }) => {}
            }
        }
        unreachable!()
    }

    /// Takes in a sender's pass, which is spent. The receiver's pass knows its list from then on: what the next `get` says
    /// it says of this list too.
    pub fn join(&self, taken: &mut OutPass<T>, done: InPass<T>)
        requires taken { taken.old.queue ≡ self.now.name }
        requires done { done.queue ≡ self.now.name }
        ensures queue { taken.new.queue ≡ taken.old.queue }
        ensures joined { taken.new.taken ≡ after_joining (Some done.list) taken.old.taken }
    {
        self.ring.absorb::<Joins>(&mut taken.pass, done.pass);
    }
}
