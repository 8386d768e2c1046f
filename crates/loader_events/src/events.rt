//! The lines of a client as events.
ghost use Rattle.std.specs.Prelude.{◌≡◌, ◌+◌, [], min, false, OnOk};
ghost use Rattle.loader_events.specs.Causes.{kept_after};
ghost use Rattle.loader_events.specs.Lines.{line_text as text_of_line};
ghost use Rattle.loader_events.specs.Writing.{WritesLine};

use crate::causes::LastRuns;
use crate::facts::LineFacts;
use crate::line_json::line_text;
use base_lines::Output;
use base_types::Memory;
use node::Graph;
use round_nodes::Run;
use std::alloc::Global;

/// The events of a client's lines. For each line it writes a line of JSON to an output: the outcome, and what the
/// evaluation read and ran, and why. It keeps the last run of each node, with the keys that the node asked for. Once a
/// write has failed nothing more is written.
#[derive(Drop)]
pub struct Events<W: Output> {
    alloc: Global,
    output: W,
    count: u64,
    last: LastRuns,
    has_failed: bool,
}

// Writes a text, and returns whether that failed.
fn fails_to_write<W: Output>(output: &mut W, text: &str) -> bool
    ensures { WritesLine false result text.now (W.held output.old) (W.held output.new) }
{
    match output.write(text.as_bytes()) {
        Ok(()) => false,
        Err(_) => true,
    }
}

impl<W: Output> Events<W> {
    /// Makes events without a line.
    pub fn new(alloc: Global, output: W) -> Events<W>
        ensures output { result.output ≡ output }
        ensures none { (result.count ≡ 0) × (result.last.runs.entries ≡ []) }
        ensures works { result.has_failed ≡ false }
    {
        Events {
            alloc,
            output,
            count: 0,
            last: LastRuns::new(alloc),
            has_failed: false,
        }
    }

    /// Returns whether a write has failed.
    pub fn has_failed(&self) -> bool
        ensures { result ≡ self.now.has_failed }
    {
        self.has_failed
    }

    // Writes a text, unless a write has failed before.
    fn write(&mut self, text: &str)
        ensures written { WritesLine self.old.has_failed self.new.has_failed text.now
            (W.held self.old.output) (W.held self.new.output) }
        ensures same { (self.new.count ≡ self.old.count)
            × (self.new.last.runs.entries ≡ self.old.last.runs.entries) }
    {
        if !self.has_failed {
            self.has_failed = fails_to_write(&mut self.output, text);
        }
    }

    /// Writes a line after which the graph is this one: its outcome, and its runs with their causes. The causes of a
    /// run are the members of the groups that the node's record had after its run before, whose value has changed since
    /// that run. The lines are counted from 1, up to 2^64 - 1. Returns `Memory` if an allocation fails; the events are
    /// then of no use.
    pub fn tell(&mut self, graph: &Graph, facts: &LineFacts<'_>, runs: &[Run]) -> Result<(), Memory>
        ensures count { OnOk result (self.new.count ≡ min (self.old.count + 1) u64.MAX) }
        ensures written { OnOk result (WritesLine self.old.has_failed self.new.has_failed
            (text_of_line graph.now self.old.last.runs.entries self.new.count facts.now runs.now)
            (W.held self.old.output) (W.held self.new.output)) }
        ensures last { OnOk result (self.new.last.runs.entries
            ≡ kept_after graph.now runs.now self.old.last.runs.entries) }
    {
        self.count = self.count.saturating_add(1);
        let text = line_text(self.alloc, graph, &self.last, self.count, facts, runs)?;
        self.last.keep_all(self.alloc, graph, runs)?;
        self.write(text.as_str());
        Ok(())
    }
}
