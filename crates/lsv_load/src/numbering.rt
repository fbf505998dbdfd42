//! A lane that notes of which logs its replies tell.

ghost use Rattle.std.specs.Prelude.{◌≡◌, ◌++◌, [], List, IfOk, OnOk};
ghost use Rattle.lsv_turn.specs.Turns.{LaneTurn, replies_in};
ghost use Rattle.lsv_load.specs.InnerNumbering.{IsNoting};
ghost use Rattle.lsv_load.specs.Numbers.{number_told, numbers_told};

use lsv_base::{LogNo, NoMem, TimeSpec};
use lsv_msg::ServerMessage;
use lsv_queue::Gap;
use lsv_session::{Job, Reply, ReplyBody};
use lsv_turn::Lane;
use std::alloc::Global;

/// A lane over another, whose turns it does. It notes the number of each log of which they tell.
#[derive(Drop)]
pub(crate) struct Numbering<L> {
    lane: L,
    numbers: Vec<LogNo>,
    /// Memory ran out to note a number.
    is_lacking: bool,
}

/// The number of the log of which a reply tells, where it tells of one.
fn number_told(reply: &Reply) -> Option<LogNo>
    ensures { result ≡ number_told reply.now.body }
{
    match &reply.body {
        ReplyBody::Say(ServerMessage::LogId(text)) => LogNo::read(text.as_slice()),
        _ => None,
    }
}

/// Notes the numbers of which these replies tell.
fn note(numbers: &mut Vec<LogNo>, replies: &[Reply]) -> Result<(), NoMem>
    ensures { OnOk result (numbers.new.items ≡ numbers.old.items ++ numbers_told replies.now) }
{
    for reply in replies {
        if let Some(number) = number_told(reply) {
            numbers.push(number)?;
        }
    }
    Ok(())
}

impl<L: Lane> Lane for Numbering<L> {
    ghost tells = { L.tells };

    ghost Start = { L.Start };

    ghost made_by = { λ start lane turns. IsNoting L.made_by start lane.lane lane.numbers.items lane.is_lacking turns };

    fn turn(
        &mut self,
        jobs: Vec<Job>,
        gap: Option<Gap<Job>>,
        replies: &mut Vec<Reply>,
    ) -> Result<TimeSpec, NoMem> {
        let Ok(()) = self.numbers.reserve(jobs.len()) else {
            return Err(NoMem);
        };
        let Ok(now) = self.lane.turn(jobs, gap, replies) else {
            return Err(NoMem);
        };
        if note(&mut self.numbers, replies).is_err() {
            self.is_lacking = true;
        }
        Ok(now)
    }
}

impl<L: Lane> Numbering<L> {
    /// A lane over one that has made no turn.
    pub(crate) fn new(alloc: Global, lane: L) -> Self
        ensures { (start : L.Start) → L.made_by start lane [] → ⟦<Numbering<L> as Lane>⟧.made_by start result [] }
    {
        Numbering {
            lane,
            numbers: Vec::new(alloc),
            is_lacking: false,
        }
    }

    /// Gives back the other lane, with the numbers of which its turns told, unless memory ran out for them.
    pub(crate) fn into_parts(self) -> (L, Result<Vec<LogNo>, NoMem>)
        ensures made { (start : L.Start) (turns : List LaneTurn) → ⟦<Numbering<L> as Lane>⟧.made_by start self turns → L.made_by start result.0 turns }
        ensures noted { IfOk result.1 (λ numbers. (start : L.Start) (turns : List LaneTurn) → ⟦<Numbering<L> as Lane>⟧.made_by start self turns → numbers.items ≡ numbers_told (replies_in turns)) }
    {
        if self.is_lacking {
            return (self.lane, Err(NoMem));
        }
        (self.lane, Ok(self.numbers))
    }
}
