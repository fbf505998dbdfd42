//! Which lane the jobs of a connection go to.

ghost use Rattle.std.specs.Prelude.{◌≡◌, ◌≢◌, ◌<◌, ◌%◌, true, false, ℕ, Some, None, IfSome};
ghost use Rattle.lsv_links.specs.Lanes.{is_hello, lane_by, lane_of_log};
ghost use Rattle.lsv_worker.specs.Lanes.{Routing, lane_or_home};

use lsv_base::LogNo;
use lsv_msg::ClientMessage;
use lsv_session::Body;
use std::marker::Model;

/// The lane of a connection, once it is decided. It knows the number of lanes and the home lane.
#[derive(Debug, Drop)]
pub struct Route {
    lanes: u32,
    home: u32,
    lane: Option<u32>,
}

impl Model for Route {
    ghost use Rattle.std.specs.Prelude.{◌<◌, IfSome};
    ghost use Rattle.lsv_worker.specs.Lanes.{Routing};

    ghost Value = { Routing };

    ghost view = { λ r. record { lanes = r.lanes; home = r.home; lane = r.lane } };

    ghost invariant = { λ r. (r.home < r.lanes) × IfSome r.lane (λ n. n < r.lanes) };
}

/// Whether a job is a hello.
pub(crate) fn is_hello(body: &Body) -> bool
    ensures { result ≡ is_hello body.now }
{
    match body {
        Body::Msg(ClientMessage::Hello(_)) => true,
        _ => false,
    }
}

impl Route {
    /// No lane is decided yet. The home lane is that of the connection's number.
    pub(crate) fn new(lanes: u32, seq: u64) -> Self
        requires { 0 < lanes }
        ensures { result ≡ record { lanes = lanes; home = seq % lanes; lane = None } }
    {
        Route {
            lanes,
            home: (seq % lanes as u64) as u32,
            lane: None,
        }
    }

    /// Whether the lane is decided.
    pub(crate) fn is_decided(&self) -> bool
        ensures yes { result ≡ true → self.now.lane ≢ None }
        ensures no { result ≡ false → self.now.lane ≡ None }
    {
        self.lane.is_some()
    }

    /// The lane if it is decided, else the home lane.
    pub(crate) fn lane(&self) -> u32
        ensures is { result ≡ lane_or_home self.now }
        ensures within { result < self.now.lanes }
    {
        match self.lane {
            Some(lane) => lane,
            None => self.home,
        }
    }

    /// A job decides the lane. A restart that names a log goes to that log's lane, any other job to the home lane.
    pub(crate) fn decide(&mut self, body: &Body)
        ensures { self.new ≡ record self.old { lane = Some (lane_by self.old.lanes self.old.home body.now) } }
    {
        self.lane = Some(match body {
            Body::Msg(ClientMessage::Restart(restart)) => {
                self.lane_of_log(LogNo::read(restart.log_id.as_slice()))
            }
            _ => self.home,
        });
    }

    fn lane_of_log(&self, log: Option<LogNo>) -> u32
        ensures is { result ≡ lane_of_log self.now.lanes self.now.home log }
        ensures within { result < self.now.lanes }
    {
        match log {
            Some(log) => (log.get() - 1) % self.lanes,
            None => self.home,
        }
    }

    /// If no lane is decided yet, an end or a fault decides for the home lane.
    pub(crate) fn settle(&mut self)
        ensures none { self.old.lane ≡ None → self.new ≡ record self.old { lane = Some self.old.home } }
        ensures some { (n : ℕ) → self.old.lane ≡ Some n → self.new ≡ self.old }
    {
        if self.lane.is_none() {
            self.lane = Some(self.home);
        }
    }
}
