//! Runs as JSON.
ghost use Rattle.std.specs.Prelude.{◌≡◌, ◌++◌, OnOk, map};
ghost use Rattle.std.specs.Option.{option_map};
ghost use Rattle.loader_replies.specs.Answers.{list};
ghost use Rattle.loader_replies.specs.Tokens.{tokens_of};
ghost use Rattle.loader_events.specs.Lines as lines;
ghost use Rattle.loader_events.specs.Tokens.{causes_tokens};

use crate::causes::{LastRuns, has_changed};
use base_types::Memory;
use keys::Key;
use loader_replies::JsonWriter;
use node::Graph;
use round_nodes::Run;
use std::alloc::Global;

// Writes a key.
fn write_key(alloc: Global, out: &mut JsonWriter, key: &Key) -> Result<(), Memory>
    ensures { OnOk result (out.new ≡ out.old ++ tokens_of (lines.key_data key.now)) }
{
    let text = key.text(alloc)?;
    out.string(text.as_str())
}

// Writes keys, in their order.
fn write_keys(alloc: Global, out: &mut JsonWriter, keys: &[Key]) -> Result<(), Memory>
    ensures { OnOk result (out.new ≡ out.old ++ tokens_of (lines.keys_data keys.now)) }
{
    out.begin_array()?;
    for key in keys {
        write_key(alloc, out, key)?;
    }
    out.end_array()
}

// Writes the causes of a run, unless it is the first.
fn write_causes(
    alloc: Global,
    out: &mut JsonWriter,
    causes: &Option<Vec<Key>>,
) -> Result<(), Memory>
    ensures { OnOk result (out.new ≡ out.old ++ causes_tokens
        (option_map (λ v. v.items) causes.now)) }
{
    match causes {
        None => Ok(()),
        Some(keys) => {
            out.key("causes")?;
            write_keys(alloc, out, keys.as_slice())
        }
    }
}

// Writes a run.
fn write_run(
    alloc: Global,
    out: &mut JsonWriter,
    graph: &Graph,
    last: &LastRuns,
    run: &Run,
) -> Result<(), Memory>
    ensures { OnOk result (out.new ≡ out.old ++ tokens_of
        (lines.run_data graph.now last.now.runs.entries run.now)) }
{
    let causes = last.causes(alloc, graph, &run.key)?;
    out.begin_object()?;
    write_causes(alloc, out, &causes)?;
    out.key("changed")?;
    out.boolean(has_changed(graph, run))?;
    out.key("key")?;
    write_key(alloc, out, &run.key)?;
    out.number_member("turns", run.turns)?;
    out.end_object()
}

/// Writes runs, in their order.
pub(crate) fn write_runs(
    alloc: Global,
    out: &mut JsonWriter,
    graph: &Graph,
    last: &LastRuns,
    runs: &[Run],
) -> Result<(), Memory>
    ensures { OnOk result (out.new ≡ out.old ++ tokens_of
        (list (map (lines.run_data graph.now last.now.runs.entries) runs.now))) }
{
    out.begin_array()?;
    for run in runs {
        write_run(alloc, out, graph, last, run)?;
    }
    out.end_array()
}
