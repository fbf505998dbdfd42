//! Which messages of a log are asked for.
ghost use Rattle.std.specs.Prelude.{◌≡◌, ◌≢◌, Ok, Err, IfOk, OnOk, option_map};
ghost use Rattle.lsv_send_args.specs.Asked.{what_in};
ghost use Rattle.lsv_send_args.specs.Request.{Sending, alone, records_of, what_of};
ghost use Rattle.lsv_send_args.specs.declared.fault.Unfit.{Unfit};
ghost use Rattle.lsv_send_args.specs.declared.fault.WordsFault.TheVariants as faults;

use crate::{Unfit, WordsFault};
use lsv_base::{Bytes, Point};
use std::alloc::Global;

/// A log of the server that is gone on with.
#[derive(Debug, Drop)]
pub struct Resumption {
    /// Its identifier there.
    pub id: Bytes,
    /// The elapsed time after which it goes on.
    pub point: Point,
}

/// What is sent of a log.
#[derive(Debug, Drop)]
pub enum What {
    /// Its records, anew or after a resume point; with an elapsed time those up to it, else all and the exit.
    Records(Option<Resumption>, Option<Point>),
    /// Its accept alone.
    Accept,
    /// A reject with this reason.
    Reject(Bytes),
}

/// The values of the options that say what is sent.
#[derive(Drop)]
pub(crate) struct Choice<'a> {
    /// Whether `-A` is given.
    pub accept: bool,
    /// The value of `-R`.
    pub reject: Option<&'a str>,
    /// The value of `-i`.
    pub id: Option<&'a str>,
    /// The value of `-r`.
    pub resume: Option<Point>,
    /// The value of `-s`.
    pub stop: Option<Point>,
}

impl Choice<'_> {
    /// What the options ask for, or the first rule between them that they break.
    pub(crate) fn what(&self, alloc: Global) -> Result<What, WordsFault>
        ensures ok { IfOk result (λ what. what_of self.now.accept (option_map (λ t. t.now) self.now.reject) (option_map (λ t. t.now) self.now.id) self.now.resume self.now.stop ≡ Ok (what_in what)) }
        ensures unfit { (u : Unfit) → result ≡ Err (WordsFault.Unfit u) → what_of self.now.accept (option_map (λ t. t.now) self.now.reject) (option_map (λ t. t.now) self.now.id) self.now.resume self.now.stop ≡ Err u }
        ensures taken { result ≢ Err WordsFault.Refused }
    {
        match (self.accept, self.reject) {
            (false, None) => self.records(alloc),
            (true, None) => {
                self.alone()?;
                Ok(What::Accept)
            }
            (false, Some(reason)) => {
                self.alone()?;
                Ok(What::Reject(Bytes::of(alloc, reason.as_bytes())?))
            }
            (true, Some(_)) => Err(WordsFault::Unfit(Unfit::AcceptAndReject)),
        }
    }
    /// Records are sent: `-i` and `-r` need each other.
    fn records(&self, alloc: Global) -> Result<What, WordsFault>
        ensures ok { IfOk result (λ what. records_of (option_map (λ t. t.now) self.now.id) self.now.resume self.now.stop ≡ Ok (what_in what)) }
        ensures unfit { (u : Unfit) → result ≡ Err (WordsFault.Unfit u) → records_of (option_map (λ t. t.now) self.now.id) self.now.resume self.now.stop ≡ Err u }
        ensures taken { result ≢ Err WordsFault.Refused }
    {
        let goes = match (self.id, self.resume) {
            (None, None) => None,
            (Some(id), Some(point)) => {
                let id = Bytes::of(alloc, id.as_bytes())?;
                Some(Resumption { id, point })
            }
            (Some(_), None) => return Err(WordsFault::Unfit(Unfit::IdAlone)),
            (None, Some(_)) => return Err(WordsFault::Unfit(Unfit::PointAlone)),
        };
        Ok(What::Records(goes, self.stop))
    }

    /// No record is sent: `-i`, `-r` and `-s` aren't taken.
    fn alone(&self) -> Result<(), WordsFault>
        ensures ok { OnOk result ((what : Sending) → alone what (option_map (λ t. t.now) self.now.id) self.now.resume self.now.stop ≡ Ok what) }
        ensures unfit { (u : Unfit) → result ≡ Err (WordsFault.Unfit u) → (what : Sending) → alone what (option_map (λ t. t.now) self.now.id) self.now.resume self.now.stop ≡ Err u }
        ensures taken { result ≢ Err WordsFault.Refused }
    {
        match (self.id, self.resume, self.stop) {
            (None, None, None) => Ok(()),
            (Some(_), _, _) => Err(WordsFault::Unfit(Unfit::AloneWithId)),
            (None, Some(_), _) => Err(WordsFault::Unfit(Unfit::AloneWithPoint)),
            (None, None, Some(_)) => Err(WordsFault::Unfit(Unfit::AloneWithStop)),
        }
    }
}
