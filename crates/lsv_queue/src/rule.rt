//! The rule of the queue, and what each step tells.

use crate::view::{Letter, View};
use crossbeam_queue::protocol::{Join, Lesson, Outcome, Protocol, Split};

/// The rule that each step keeps: of each sender, what was taken and then what the queue holds is that sender's list.
pub struct InOrder;

impl<T> Protocol<Letter<T>, View<T>> for InOrder {
    ghost use Rattle.lsv_queue.specs.Order.{IsInOrder, opening};

    ghost holds = { IsInOrder };

    ghost first = { opening };
}

/// The opening view is cut into the first sender's and the receiver's.
pub struct Roles;

impl<T> Split<View<T>> for Roles {
    ghost use Rattle.lsv_queue.specs.Order.{as_sender, as_receiver};

    ghost left = { as_sender };

    ghost right = { as_receiver };
}

/// A new sender is made.
pub struct Makes;

impl<T> Split<View<T>> for Makes {
    ghost use Rattle.lsv_queue.specs.Order.{with_one_more, newcomer};

    ghost left = { with_one_more };

    ghost right = { newcomer };
}

/// A sender's list comes to the receiver.
pub struct Joins;

impl<T> Join<View<T>> for Joins {
    ghost use Rattle.lsv_queue.specs.Order.{with_joined, spent};

    ghost both = { with_joined };

    ghost spent = { spent };
}

/// A sender puts a letter. If the queue is full, it learns that the queue was.
pub struct Puts;

impl<T> Outcome<Letter<T>, View<T>> for Puts {
    ghost use Rattle.std.specs.Prelude.{◌≡◌};
    ghost use Rattle.lsv_queue.specs.Order.{with_letter};

    ghost then = { λ v x w. w ≡ with_letter v x };
}

impl<T> Lesson<Letter<T>, View<T>> for Puts {
    ghost use Rattle.lsv_queue.specs.Order.{HoldsRest};

    ghost fact = { HoldsRest };
}

/// The receiver takes a letter. If the queue is empty, it learns what that says of the joined lists.
pub struct Takes;

impl<T> Outcome<Letter<T>, View<T>> for Takes {
    ghost use Rattle.lsv_queue.specs.Order.{TakesLetter};

    ghost then = { TakesLetter };
}

impl<T> Lesson<Letter<T>, View<T>> for Takes {
    ghost use Rattle.lsv_queue.specs.Order.{Knows};

    ghost fact = { Knows };
}
