ghost use Rattle.std.specs.Prelude.{◌≡◌, ◌<◌, ◌≤◌, None, nat_lt};
ghost use Rattle.std.specs.Option.{is_some};
ghost use Rattle.ovl_io.specs.declared.turn.Turn.{Turn};
ghost use Rattle.machine_core.specs.Ample.{is_full_turn};
ghost use Rattle.process_runs.specs.Turns.{begun_by, run_after, run_counted, run_took, stretch};

use report_text::Stop;
use round_robin::RoundRobin;
use std::marker::Model;

/// Whose turns they are.
#[derive(Debug, Drop)]
pub enum Order {
    /// Those of all running processes, by round robin.
    ByTurns(RoundRobin),
    /// Those of one process.
    Alone(u16),
}

/// A run in progress.
#[derive(Debug, Drop)]
pub struct Running {
    order: Order,
    calls: bool,
    turns: u32,
    taken: u32,
    last: Option<u16>,
    stop: Option<Stop>,
}

impl Model for Running {
    ghost use Rattle.std.specs.Prelude.{◌≤◌};
    ghost use Rattle.process_runs.specs.Turns.{InRun};

    ghost Value = { InRun };

    ghost view = { λ r. record {
      run = record { order = r.order; calls = r.calls; turns = r.turns; taken = r.taken; last = r.last };
      stop = r.stop;
    } };

    ghost invariant = { λ r. r.taken ≤ r.turns };
}

impl Running {
    /// A run of so many turns, of which none was taken; no ending was looked for.
    pub(crate) fn new(order: Order, calls: bool, turns: u32) -> Running
        ensures { result ≡ record { run = begun_by order calls turns; stop = None } }
    {
        Running {
            order,
            calls,
            turns,
            taken: 0,
            last: None,
            stop: None,
        }
    }

    pub(crate) fn order(&self) -> &Order
        ensures order { result.now ≡ self.now.run.order }
        ensures within { self.now.run.taken ≤ self.now.run.turns }
    {
        &self.order
    }

    /// Whether processes may speculate by themselves.
    #[inline]
    pub(crate) fn calls(&self) -> bool
        ensures { result ≡ self.now.run.calls }
    {
        self.calls
    }

    /// Whose turn was the last; none where none was taken.
    #[inline]
    pub(crate) fn last(&self) -> Option<u16>
        ensures { result ≡ self.now.run.last }
    {
        self.last
    }

    /// Whether a turn is left to be taken.
    pub(crate) fn has_left(&self) -> bool
        ensures left { result ≡ nat_lt self.now.run.taken self.now.run.turns }
        ensures within { self.now.run.taken ≤ self.now.run.turns }
    {
        self.taken < self.turns
    }

    /// Whether an ending was found.
    pub(crate) fn has_ended(&self) -> bool
        ensures ended { result ≡ is_some self.now.stop }
        ensures within { self.now.run.taken ≤ self.now.run.turns }
    {
        self.stop.is_some()
    }

    /// A turn of a process was taken.
    pub(crate) fn took(&mut self, p: u16)
        requires { self.old.run.taken < self.old.run.turns }
        ensures { self.new ≡ record { run = run_after p self.old.run; stop = self.old.stop } }
    {
        if let Order::ByTurns(turns) = &mut self.order {
            turns.took(p);
        }
        self.taken += 1;
        self.last = Some(p);
    }

    /// How many turns `p`, whose turn is next, has until another's may be, or until none is left.
    #[inline]
    pub(crate) fn stretch(&self, p: u16) -> u32
        requires { self.now.run.taken < self.now.run.turns }
        ensures stretch { result ≡ stretch p self.now.run }
        ensures some { 1 ≤ result }
    {
        let most = self.turns - self.taken;
        match &self.order {
            Order::ByTurns(turns) => most.min(turns.left_for(p)),
            Order::Alone(_) => most,
        }
    }

    /// So many turns of `p`, whose turn was next, were taken.
    #[inline]
    pub(crate) fn took_turns(&mut self, p: u16, n: u32)
        requires fits { n ≤ stretch p self.old.run }
        ensures took { self.new ≡ record { run = run_took n p self.old.run; stop = self.old.stop } }
        ensures within { self.new.run.taken ≤ self.new.run.turns }
    {
        if n > 0 {
            if let Order::ByTurns(turns) = &mut self.order {
                turns.took_turns(p, n);
            }
            self.last = Some(p);
        }
        self.taken += n;
    }

    /// Counts a turn of `p`. One for which there weren't units enough (`full`) isn't counted, and ends the run.
    #[inline]
    pub(crate) fn count(&mut self, p: u16, full: bool)
        requires left { self.old.run.taken < self.old.run.turns }
        requires goes { self.old.stop ≡ None }
        ensures counted { (turn : Turn) → is_full_turn turn ≡ full → self.new ≡ run_counted turn p self.old.run }
        ensures within { self.new.run.taken ≤ self.new.run.turns }
    {
        if full {
            self.stop = Some(Stop::Full);
        } else {
            self.took(p);
        }
    }

    pub(crate) fn set_stop(&mut self, stop: Option<Stop>)
        ensures { self.new ≡ record { run = self.old.run; stop = stop } }
    {
        self.stop = stop;
    }

    /// How many turns were counted.
    pub fn taken(&self) -> u32
        ensures { result ≡ self.now.run.taken }
    {
        self.taken
    }

    /// Why it ended, where an ending was found.
    pub fn stop(&self) -> Option<Stop>
        ensures { result ≡ self.now.stop }
    {
        self.stop
    }
}
