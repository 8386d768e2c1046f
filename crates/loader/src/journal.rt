//! What is recorded of the lines that are served.
ghost use Rattle.std.specs.Prelude.{◌≡◌, ℕ, List, Option, None, Some, ◌++◌, OnOk, [], flat_map};
ghost use Rattle.round_nodes.specs.declared.run.Run.{Run};
ghost use Rattle.loader.specs.LineAnswers.{IsOneMore};

use base_ghost::Count;
use base_lines::Output;
use base_types::Memory;
use http_server::Log;
use loader_events::{Events, LineFacts};
use node::Graph;
use round::Run;
use std::alloc::AllocError;
use std::marker::Model;

/// Takes the runs of requests, in their order, and the facts of each line.
pub trait Runs {
    // The runs that it took.
    ghost kept: { Self → List Run };

    // How many lines it took, where it counts them.
    ghost lines: { Self → Option ℕ } = { λ _. None };

    /// Takes the facts and the runs of one more line, after which the graph is this one. A line that is not evaluated
    /// has no runs. Returns `Memory` if an allocation fails.
    fn add(&mut self, graph: &Graph, facts: &LineFacts<'_>, runs: Vec<Run>) -> Result<(), Memory>
        ensures kept { OnOk result (kept self.new ≡ kept self.old ++ runs.items) }
        ensures lines { OnOk result (IsOneMore (lines self.old) (lines self.new)) };
}

/// The run lists of all requests, in their order.
pub type Journal = Vec<Run>;

impl Runs for Vec<Run> {
    ghost kept = { λ journal. journal.items };

    fn add(
        &mut self,
        _graph: &Graph,
        _facts: &LineFacts<'_>,
        runs: Vec<Run>,
    ) -> Result<(), Memory> {
        let mut runs = runs;
        Ok(self.append(&mut runs)?)
    }
}

/// A journal that keeps no run. A contract sees those that it took; a program cannot read them, and they take no
/// memory.
#[derive(Drop)]
pub struct GhostJournal {
    log: Log<Vec<Run>, ()>,
}

impl Model for GhostJournal {
    ghost use Rattle.std.specs.Prelude.{List, flat_map};
    ghost use Rattle.round_nodes.specs.declared.run.Run.{Run};

    ghost Value = { List Run };

    ghost view = { λ u. flat_map (λ p. p.0.items) u.log.items };
}

impl GhostJournal {
    /// Makes a journal without a run.
    pub fn new() -> GhostJournal
        ensures { result ≡ [] }
    {
        GhostJournal { log: Log::new() }
    }
}

impl Runs for GhostJournal {
    ghost kept = { λ u. u };

    fn add(
        &mut self,
        _graph: &Graph,
        _facts: &LineFacts<'_>,
        runs: Vec<Run>,
    ) -> Result<(), Memory> {
        self.log = self.log.and(&runs, &());
        Ok(())
    }
}

/// A journal with events: each line is written as an event before its runs are kept.
#[derive(Drop)]
pub struct EventJournal<W: Output, J: Runs> {
    events: Events<W>,
    journal: J,
    lines: Count,
}

impl<W: Output, J: Runs> EventJournal<W, J> {
    /// Makes a journal without runs, with these events.
    pub fn new(events: Events<W>, journal: J) -> EventJournal<W, J>
        ensures journal { result.journal ≡ journal }
        ensures lines { result.lines ≡ 0 }
    {
        EventJournal {
            events,
            journal,
            lines: Count::new(),
        }
    }

    /// Returns whether a write of an event has failed.
    pub fn has_failed(&self) -> bool {
        self.events.has_failed()
    }

    /// Returns the journal.
    pub fn journal(&self) -> &J
        ensures { result.now ≡ self.now.journal }
    {
        &self.journal
    }
}

impl<W: Output, J: Runs> Runs for EventJournal<W, J> {
    ghost use Rattle.std.specs.Prelude.{Some};

    ghost kept = { λ s. J.kept s.journal };

    ghost lines = { λ s. Some s.lines };

    fn add(&mut self, graph: &Graph, facts: &LineFacts<'_>, runs: Vec<Run>) -> Result<(), Memory> {
        self.events.tell(graph, facts, runs.as_slice())?;
        self.lines.add_one();
        self.journal.add(graph, facts, runs)
    }
}
