//! The event of a line, as JSON.
ghost use Rattle.std.specs.Prelude.{◌≡◌, ◌++◌, ◌∷◌, [], OnOk, IfOk, map, string_bytes};
ghost use Rattle.serde_json.specs.Data.{string};
ghost use Rattle.loader_replies.specs.Answers.{list};
ghost use Rattle.loader_replies.specs.Tokens.{tokens_of};
ghost use Rattle.loader_commands.specs.View.{texts_seen};
ghost use Rattle.loader_events.specs.Lines as lines;
ghost use Rattle.loader_events.specs.Tokens.{place_tokens, body_tokens, word_tokens};

use crate::causes::LastRuns;
use crate::facts::{LineFacts, LineOutcome};
use crate::run_json::write_runs;
use base_types::Memory;
use loader_commands::edited_paths;
use loader_replies::JsonWriter;
use node::Graph;
use round_nodes::Run;
use std::alloc::Global;

// Writes texts, in their order.
fn write_texts(out: &mut JsonWriter, texts: &[&str]) -> Result<(), Memory>
    ensures { OnOk result (out.new ≡ out.old ++ tokens_of
        (list (map string (texts_seen texts.now)))) }
{
    out.begin_array()?;
    for text in texts {
        out.string(text)?;
    }
    out.end_array()
}

// Writes the place of the change that was refused in a batch, if one was.
fn write_place(out: &mut JsonWriter, outcome: &LineOutcome<'_>) -> Result<(), Memory>
    ensures { OnOk result (out.new ≡ out.old ++ place_tokens outcome.now) }
{
    match outcome {
        LineOutcome::Refused {
            place: Some(place),
            code: _,
        } => out.number_member("edit", *place as u64),
        _ => Ok(()),
    }
}

// Writes the word of the command, if the line was one.
fn write_word(out: &mut JsonWriter, word: Option<&'static str>) -> Result<(), Memory>
    ensures { OnOk result (out.new ≡ out.old ++ word_tokens word.entry) }
{
    match word {
        None => Ok(()),
        Some(word) => out.string_member("op", word),
    }
}

// Writes the outcome of the line.
fn write_outcome(
    alloc: Global,
    out: &mut JsonWriter,
    graph: &Graph,
    last: &LastRuns,
    outcome: &LineOutcome<'_>,
    runs: &[Run],
) -> Result<(), Memory>
    ensures { OnOk result (out.new ≡ out.old ++ body_tokens graph.now last.now.runs.entries
        outcome.now runs.now) }
{
    match outcome {
        LineOutcome::Refused { place: _, code } => out.number_member("refused", *code),
        LineOutcome::Edited(edit) => {
            let paths = edited_paths(alloc, edit)?;
            out.key("paths")?;
            write_texts(out, paths.as_slice())
        }
        LineOutcome::Evaluated => {
            out.key("runs")?;
            write_runs(alloc, out, graph, last, runs)
        }
    }
}

// Returns the version of a graph.
fn version_of(graph: &Graph) -> u64
    ensures { result ≡ graph.now.version }
{
    u64::from(graph.version())
}

// Writes the event of a line.
fn write_line(
    alloc: Global,
    out: &mut JsonWriter,
    graph: &Graph,
    last: &LastRuns,
    number: u64,
    facts: &LineFacts<'_>,
    runs: &[Run],
) -> Result<(), Memory>
    ensures { OnOk result (out.new ≡ out.old ++ tokens_of
        (lines.line_data graph.now last.now.runs.entries number facts.now runs.now)) }
{
    out.begin_object()?;
    write_place(out, &facts.outcome)?;
    out.number_member("line", number)?;
    write_word(out, facts.word)?;
    write_outcome(alloc, out, graph, last, &facts.outcome, runs)?;
    out.number_member("version", version_of(graph))?;
    out.end_object()
}

// Returns a text with byte 10 after it.
fn end_line(text: String) -> Result<String, Memory>
    ensures { IfOk result (λ t. string_bytes t ≡ string_bytes text ++ 10 ∷ []) }
{
    let mut text = text;
    text.push('\n')?;
    Ok(text)
}

/// Returns the text of the event of a line, ended by byte 10.
pub(crate) fn line_text(
    alloc: Global,
    graph: &Graph,
    last: &LastRuns,
    number: u64,
    facts: &LineFacts<'_>,
    runs: &[Run],
) -> Result<String, Memory>
    ensures { IfOk result (λ text. string_bytes text
        ≡ lines.line_text graph.now last.now.runs.entries number facts.now runs.now) }
{
    let mut out = JsonWriter::new(alloc);
    write_line(alloc, &mut out, graph, last, number, facts, runs)?;
    let text = out.into_text();
    Ok(end_line(text)?)
}
