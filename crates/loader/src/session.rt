//! The session: the present files with the graph of what was found out about them, their edits, and the replies to
//! lines.
ghost use Rattle.std.specs.Prelude.{◌≡◌, ◌≤◌, ◌+◌, ◌++◌, ◌∷◌, [], IfOk, OnOk, OnErr, length, string_bytes, List, ℕ, option_and_then, option_map};
ghost use Rattle.serde_json.specs.View.{view as json_view};
ghost use Rattle.board.specs.Rule.{total};
ghost use Rattle.engine_semantics.specs.Graph.{MarksDirty};
ghost use Rattle.node.specs.Graphs.{record_at, IsTouched};
ghost use Rattle.round_nodes.specs.TurnCounts.{turns_of};
ghost use Rattle.base_lines.specs.Lines.{HoldsLine};
ghost use Rattle.loader_answers.specs.Effects.{StopsAfter, StopsRequest};
ghost use Rattle.loader.specs.RequestCalls.{AreReplyRoots, CallsKeys, IsAccepted, IsHandCount, IsReplyTo, ReturnsHands, RunsEvaluations, RunsRequest, SettlesAccepted, SettlesKeys, SettlesReply};
ghost use Rattle.loader_answers.specs.State as state;
ghost use Rattle.loader_answers.specs.Sessions.{SessionView, state_of, paths_of, IsConsistent};
ghost use Rattle.loader.specs.LineAnswers.{AddsLine, Begins, IsOneMore};
ghost use Rattle.loader_commands.specs.View.{edit_seen, request_seen};
ghost use Rattle.loader_commands.specs.Commands as commands;

use crate::journal::Runs;
use crate::turns::{concat_runs, turns_left};
use crate::workers::evaluate_with;
use base_lines::Line;
use base_types::Memory;
use filetree::Tree;
use filetree::refusals::{LINE_TOO_LONG, NO_COMMAND};
use functions::{LoadRules, Loading};
use keys::Key;
use loader_answers::{
    accepted_text, later_roots, refusal_text, refusal_text_at, reply_text, roots_of,
};
use loader_commands::{
    Command, Edit, EditError, EditLog, Request, command_of, data_of, edit_files, edited_paths,
    refusal, refusal_at_limit,
};
use loader_events::{LineFacts, LineOutcome, edit_word, request_word};
use node::Graph;
use round::{Run, Stop, evaluate_here};
use serde_json::Value;
use std::alloc::Global;
use std::marker::Model;
use std::sync::Wait;
use std::thread::Threads;

mod holding;
mod publishing;

/// The reply to a request.
#[derive(Drop)]
pub struct Reply {
    /// The line that replies to it, without its byte 10.
    pub text: String,
    /// What its evaluation read and ran, in the order in which it was settled. A refused request is not evaluated.
    pub runs: Vec<Run>,
}

/// The present files, and the graph of what earlier requests found out about them. A contract sees the graph, and the
/// history for which it is consistent: the version at which the session began, without files, and the edits accepted
/// since then. The present files are those to which these edits lead.
#[derive(Drop)]
pub struct Session {
    alloc: Global,
    tree: Tree,
    graph: Graph,
    began: u32,
    accepted: EditLog,
}

impl Model for Session {
    ghost use Rattle.std.specs.Prelude.{◌≡◌};
    ghost use Rattle.loader_answers.specs.Sessions.{SessionView, IsConsistent, files_of};

    ghost Value = { SessionView };

    ghost use Rattle.std.specs.Coded.{codes};
    ghost use Rattle.keys.specs.Storage.{loaded_code};

    ghost coded = { Prim.hlevel (codes, loaded_code) };

    ghost view = { λ s. record { began = s.began; edits = s.accepted; graph = s.graph } };

    ghost use Rattle.filetree.specs.Lawful.{HasPaths};

    ghost invariant = { λ s. (s.tree ≡ files_of (record { began = s.began; edits = s.accepted; graph = s.graph })) × IsConsistent (record { began = s.began; edits = s.accepted; graph = s.graph }) × HasPaths s.tree };
}

impl Session {
    /// Makes a session without files, at version 0.
    pub fn new(alloc: Global) -> Session
        ensures state { state_of result ≡ state.start }
        ensures history { (result.began ≡ 0) × (result.edits ≡ []) }
        ensures records { result.graph.records ≡ [] }
        ensures lawful { IsConsistent result }
    {
        Session::new_at(alloc, 0)
    }

    /// Makes a session without files, at a version.
    pub fn new_at(alloc: Global, version: u32) -> Session
        ensures state { state_of result ≡ state.start_at version }
        ensures history { (result.began ≡ version) × (result.edits ≡ []) }
        ensures records { result.graph.records ≡ [] }
        ensures lawful { IsConsistent result }
    {
        Session {
            alloc,
            tree: Tree::new(alloc),
            graph: Graph::new_at(alloc, version),
            began: version,
            accepted: EditLog::new(),
        }
    }

    /// Returns how many edits were accepted, counted from the version at which the session began.
    pub fn version(&self) -> u32
        ensures { result ≡ (state_of self.now).version }
    {
        self.graph.version()
    }

    /// Makes an edit, and returns the new version, which is one more, also for a batch. The records that reach a leaf
    /// which the edit touches are marked dirty. An edit that is refused changes nothing. The records that it reaches
    /// are found first, then the files are changed in place, and marking records dirty takes no memory.
    pub fn apply(&mut self, edit: &Edit<'_>) -> Result<u32, EditError>
        ensures applies { state.Applies (edit_seen edit.now) (state_of self.old) (state_of self.new)
            result }
        ensures history { OnOk result ((self.new.began ≡ self.old.began)
            × (self.new.edits ≡ self.old.edits ++ edit_seen edit.now ∷ [])) }
        ensures marks { OnOk result (MarksDirty (record_at self.old.graph) (record_at
            self.new.graph) (IsTouched (paths_of (edit_seen edit.now)))) }
        ensures lawful { IsConsistent self.new }
        ensures refused { OnErr result (self.new ≡ self.old) }
    {
        if self.graph.version() == u32::MAX {
            return Err(refusal_at_limit(&self.tree, edit));
        }
        let paths = edited_paths(self.alloc, edit)?;
        let reached = self.graph.keys_to_dirty(paths.as_slice())?;
        edit_files(&mut self.tree, edit)?;
        let version = self.graph.mark_dirty(reached.as_slice());
        self.accepted.add(edit);
        Ok(version)
    }

    /// Replies to a request by its evaluation over the graph, in at most `budget` turns, and returns what that ran. A
    /// graph that is consistent stays so, and each run is justified. The files stay as they are, and even after a stop
    /// a later request gets the reply that an evaluation from scratch gives.
    pub fn request(&mut self, request: &Request<'_>, budget: u64) -> Result<Reply, Stop>
        ensures text { IfOk result (λ reply. IsReplyTo request.now self.old reply) }
        ensures held { OnOk result (SettlesAccepted request.now self.old self.new) }
        ensures moves { IfOk result (λ reply. RunsRequest request.now self.old self.new reply) }
        ensures turns { IfOk result (λ reply. turns_of reply.runs.items ≤ budget) }
        ensures stopped { OnErr result (StopsRequest (request_seen request.now) self.old self.new) }
        ensures history { (self.new.began ≡ self.old.began) × (self.new.edits ≡ self.old.edits) }
        ensures version { self.new.graph.version ≡ self.old.graph.version }
        ensures lawful { IsConsistent self.new }
    {
        if let Some(n) = refusal(self.alloc, request)? {
            return Ok(Reply {
                text: refusal_text(self.alloc, n)?,
                runs: Vec::new(self.alloc),
            });
        }
        self.reply_to(request, budget)
    }

    // Replies to a request that is not refused, as `request` does.
    fn reply_to(&mut self, request: &Request<'_>, budget: u64) -> Result<Reply, Stop>
        requires { IsAccepted request.now }
        ensures text { IfOk result (λ reply. IsReplyTo request.now self.old reply) }
        ensures held { OnOk result (SettlesReply request.now self.old self.new) }
        ensures moves { IfOk result (λ reply. RunsRequest request.now self.old self.new reply) }
        ensures turns { IfOk result (λ reply. turns_of reply.runs.items ≤ budget) }
        ensures stopped { OnErr result (StopsRequest (request_seen request.now) self.old self.new) }
        ensures history { (self.new.began ≡ self.old.began) × (self.new.edits ≡ self.old.edits) }
        ensures version { self.new.graph.version ≡ self.old.graph.version }
        ensures lawful { IsConsistent self.new }
    {
        let alloc = self.alloc;
        let (roots, runs) = self.evaluate_request(request, budget)?;
        let text = reply_text(alloc, &self.graph, request, roots.as_slice())?;
        Ok(Reply { text, runs })
    }

    /// Replies to a request as `request` does, by one thread for each hand, one of which is the caller's. Returns the
    /// hands too, whose turns have grown by those of the reply's runs. The reply does not depend on the order in which
    /// the threads make their turns. After a stop the hands are dropped.
    pub fn request_with<R: LoadRules + Send + Drop, T: Threads + Wait + Sync>(
        &mut self,
        runtime: &T,
        request: &Request<'_>,
        hands: Vec<R>,
        budget: u64,
    ) -> Result<(Vec<R>, Reply), Stop>
        requires { IsHandCount (length hands.items) }
        ensures hands { IfOk result (λ done. ReturnsHands R.turns hands done.0 done.1.runs.items) }
        ensures text { IfOk result (λ done. IsReplyTo request.now self.old done.1) }
        ensures held { OnOk result (SettlesAccepted request.now self.old self.new) }
        ensures moves { IfOk result (λ done. RunsRequest request.now self.old self.new done.1) }
        ensures turns { IfOk result (λ done. turns_of done.1.runs.items ≤ budget) }
        ensures stopped { OnErr result (StopsRequest (request_seen request.now) self.old self.new) }
        ensures history { (self.new.began ≡ self.old.began) × (self.new.edits ≡ self.old.edits) }
        ensures version { self.new.graph.version ≡ self.old.graph.version }
        ensures lawful { IsConsistent self.new }
    {
        if let Some(n) = refusal(self.alloc, request)? {
            let reply = Reply {
                text: refusal_text(self.alloc, n)?,
                runs: Vec::new(self.alloc),
            };
            return Ok((hands, reply));
        }
        self.reply_to_with(runtime, request, hands, budget)
    }

    // Replies to a request that is not refused, as `request_with` does.
    fn reply_to_with<R: LoadRules + Send + Drop, T: Threads + Wait + Sync>(
        &mut self,
        runtime: &T,
        request: &Request<'_>,
        hands: Vec<R>,
        budget: u64,
    ) -> Result<(Vec<R>, Reply), Stop>
        requires { IsHandCount (length hands.items) × IsAccepted request.now }
        ensures hands { IfOk result (λ done. ReturnsHands R.turns hands done.0 done.1.runs.items) }
        ensures text { IfOk result (λ done. IsReplyTo request.now self.old done.1) }
        ensures held { OnOk result (SettlesReply request.now self.old self.new) }
        ensures moves { IfOk result (λ done. RunsRequest request.now self.old self.new done.1) }
        ensures turns { IfOk result (λ done. turns_of done.1.runs.items ≤ budget) }
        ensures stopped { OnErr result (StopsRequest (request_seen request.now) self.old self.new) }
        ensures history { (self.new.began ≡ self.old.began) × (self.new.edits ≡ self.old.edits) }
        ensures version { self.new.graph.version ≡ self.old.graph.version }
        ensures lawful { IsConsistent self.new }
    {
        let alloc = self.alloc;
        let (hands, roots, runs) = self.evaluate_request_with(runtime, request, hands, budget)?;
        let line = reply_text(alloc, &self.graph, request, roots.as_slice())?;
        Ok((hands, Reply { text: line, runs }))
    }

    // Evaluates what a request asks for, and then the packages that it names, both in one budget. Returns the keys that
    // the reply is about, and what both ran.
    fn evaluate_request(
        &mut self,
        request: &Request<'_>,
        budget: u64,
    ) -> Result<(Vec<Key>, Vec<Run>), Stop>
        ensures roots { IfOk result (λ done. AreReplyRoots request.now self.old done.0.items) }
        ensures held { IfOk result (λ done. SettlesKeys done.0.items self.old self.new) }
        ensures moves { IfOk result (λ done. RunsEvaluations request.now self.old self.new done.1) }
        ensures turns { IfOk result (λ done. turns_of done.1.items ≤ budget) }
        ensures stopped { OnErr result (StopsRequest (request_seen request.now) self.old self.new) }
        ensures history { (self.new.began ≡ self.old.began) × (self.new.edits ≡ self.old.edits) }
        ensures version { self.new.graph.version ≡ self.old.graph.version }
        ensures lawful { IsConsistent self.new }
    {
        let roots = roots_of(self.alloc, request)?;
        let runs = self.settle(roots.as_slice(), budget)?;
        let Some(later) = later_roots(self.alloc, &self.graph, request, roots.as_slice())? else {
            return Ok((roots, runs));
        };
        let left = turns_left(budget, runs.as_slice());
        let more = self.settle(later.as_slice(), left)?;
        let all = concat_runs(runs, more)?;
        Ok((later, all))
    }

    // Evaluates as `evaluate_request` does, by one thread for each hand.
    fn evaluate_request_with<R: LoadRules + Send + Drop, T: Threads + Wait + Sync>(
        &mut self,
        runtime: &T,
        request: &Request<'_>,
        hands: Vec<R>,
        budget: u64,
    ) -> Result<(Vec<R>, Vec<Key>, Vec<Run>), Stop>
        requires { IsHandCount (length hands.items) }
        ensures hands { IfOk result (λ done. ReturnsHands R.turns hands done.0 done.2.items) }
        ensures roots { IfOk result (λ done. AreReplyRoots request.now self.old done.1.items) }
        ensures held { IfOk result (λ done. SettlesKeys done.1.items self.old self.new) }
        ensures moves { IfOk result (λ done. RunsEvaluations request.now self.old self.new done.2) }
        ensures turns { IfOk result (λ done. turns_of done.2.items ≤ budget) }
        ensures stopped { OnErr result (StopsRequest (request_seen request.now) self.old self.new) }
        ensures history { (self.new.began ≡ self.old.began) × (self.new.edits ≡ self.old.edits) }
        ensures version { self.new.graph.version ≡ self.old.graph.version }
        ensures lawful { IsConsistent self.new }
    {
        let roots = roots_of(self.alloc, request)?;
        let (hands, runs) = self.settle_with(runtime, roots.as_slice(), hands, budget)?;
        let Some(later) = later_roots(self.alloc, &self.graph, request, roots.as_slice())? else {
            return Ok((hands, roots, runs));
        };
        let left = turns_left(budget, runs.as_slice());
        let (hands, more) = self.settle_with(runtime, later.as_slice(), hands, left)?;
        let all = concat_runs(runs, more)?;
        Ok((hands, later, all))
    }

    // Evaluates keys over the graph, in at most `budget` turns, and returns what that ran. Each of them that has a
    // value for the present files then has it in the graph.
    fn settle(&mut self, roots: &[Key], budget: u64) -> Result<Vec<Run>, Stop>
        ensures law { IfOk result (λ runs. CallsKeys roots.now self.old self.new runs.items) }
        ensures turns { IfOk result (λ runs. turns_of runs.items ≤ budget) }
        ensures held { OnOk result (SettlesKeys roots.now self.old self.new) }
        ensures stopped { OnErr result (StopsAfter roots.now self.old self.new) }
        ensures history { (self.new.began ≡ self.old.began) × (self.new.edits ≡ self.old.edits) }
        ensures version { self.new.graph.version ≡ self.old.graph.version }
        ensures lawful { IsConsistent self.new }
    {
        let mut rules = Loading::new(self.alloc);
        let runs = evaluate_here(
            self.alloc,
            &mut self.graph,
            &self.tree,
            roots,
            &mut rules,
            budget,
        )?;
        Ok(runs)
    }

    // Evaluates keys as `settle` does, by one thread for each hand.
    fn settle_with<R: LoadRules + Send + Drop, T: Threads + Wait + Sync>(
        &mut self,
        runtime: &T,
        roots: &[Key],
        hands: Vec<R>,
        budget: u64,
    ) -> Result<(Vec<R>, Vec<Run>), Stop>
        requires { IsHandCount (length hands.items) }
        ensures hands { IfOk result (λ done. ReturnsHands R.turns hands done.0 done.1.items) }
        ensures law { IfOk result (λ done. CallsKeys roots.now self.old self.new done.1.items) }
        ensures turns { IfOk result (λ done. turns_of done.1.items ≤ budget) }
        ensures held { OnOk result (SettlesKeys roots.now self.old self.new) }
        ensures stopped { OnErr result (StopsAfter roots.now self.old self.new) }
        ensures history { (self.new.began ≡ self.old.began) × (self.new.edits ≡ self.old.edits) }
        ensures version { self.new.graph.version ≡ self.old.graph.version }
        ensures lawful { IsConsistent self.new }
    {
        let done = evaluate_with(
            runtime,
            self.alloc,
            &mut self.graph,
            &self.tree,
            roots,
            hands,
            budget,
        )?;
        Ok(done)
    }
}

// What is done for a line before anything is evaluated: it is refused, an edit is made, or it asks something about the
// present files.
pub(crate) enum LineKind<'a> {
    Refused(String, LineFacts<'a>),
    Edited(String, Edit<'a>),
    Request(Request<'a>),
}

// Makes the facts of a line that was refused.
fn refused_facts<'a>(word: Option<&'static str>, place: Option<usize>, code: u64) -> LineFacts<'a> {
    LineFacts {
        word,
        outcome: LineOutcome::Refused { place, code },
    }
}

// Makes an edit, or refuses it.
fn begin_edit<'a>(
    alloc: Global,
    session: &mut Session,
    edit: Edit<'a>,
) -> Result<LineKind<'a>, Memory>
    ensures begins { IfOk result (λ step. Begins (Some (commands.change (edit_seen edit.entry)))
        session.old session.new step) }
    ensures lawful { IsConsistent session.old → IsConsistent session.new }
{
    let word = Some(edit_word(&edit));
    match session.apply(&edit) {
        Ok(version) => Ok(LineKind::Edited(accepted_text(alloc, version)?, edit)),
        Err(EditError::Refused(n)) => {
            Ok(LineKind::Refused(refusal_text(alloc, n)?, refused_facts(word, None, n)))
        }
        Err(EditError::RefusedAt(at, n)) => {
            Ok(LineKind::Refused(
                refusal_text_at(alloc, at, n)?,
                refused_facts(word, Some(at), n),
            ))
        }
        Err(EditError::Memory(error)) => Err(error),
    }
}

// Refuses a request, or returns it.
fn begin_request<'a>(
    alloc: Global,
    session: &Session,
    request: Request<'a>,
) -> Result<LineKind<'a>, Memory>
    ensures { IfOk result (λ step. Begins (Some (commands.ask (request_seen request.entry)))
        session.now session.now step) }
{
    match refusal(alloc, &request)? {
        Some(n) => {
            let facts = refused_facts(Some(request_word(&request)), None, n);
            Ok(LineKind::Refused(refusal_text(alloc, n)?, facts))
        }
        None => Ok(LineKind::Request(request)),
    }
}

// Refuses a line that is not a command.
fn begin_refused<'a>(alloc: Global) -> Result<LineKind<'a>, Memory>
    ensures { IfOk result (λ step. (session : SessionView) → Begins None session session step) }
{
    Ok(LineKind::Refused(
        refusal_text(alloc, NO_COMMAND)?,
        refused_facts(None, None, NO_COMMAND),
    ))
}

// Makes the edit of a line, refuses the line, or returns the request that it asks. `value` is the line's JSON, if it is
// JSON.
fn begin<'a>(
    alloc: Global,
    session: &mut Session,
    value: &'a Option<Value>,
) -> Result<LineKind<'a>, Memory>
    ensures begins { IfOk result
        (λ step. Begins (option_and_then commands.command_of (option_map json_view value.now))
        session.old session.new step) }
    ensures lawful { IsConsistent session.old → IsConsistent session.new }
{
    let Some(value) = value else {
        return Ok(begin_refused(alloc)?);
    };
    match command_of(alloc, value)? {
        None => Ok(begin_refused(alloc)?),
        Some(Command::Change(edit)) => Ok(begin_edit(alloc, session, edit)?),
        Some(Command::Ask(request)) => Ok(begin_request(alloc, session, request)?),
    }
}

// Returns a text with byte 10 after it.
fn with_newline(text: String) -> Result<String, Memory>
    ensures { IfOk result (λ t. string_bytes t ≡ string_bytes text ++ 10 ∷ []) }
{
    let mut text = text;
    text.push('\n')?;
    Ok(text)
}

// Passes a line that is not evaluated to the journal, and returns its reply with byte 10 after it.
fn tell_line<J: Runs>(
    alloc: Global,
    session: &Session,
    journal: &mut J,
    text: String,
    facts: &LineFacts<'_>,
) -> Result<String, Memory>
    ensures text { IfOk result (λ t. string_bytes t ≡ string_bytes text ++ 10 ∷ []) }
    ensures kept { OnOk result (J.kept journal.new ≡ J.kept journal.old ++ []) }
    ensures told { OnOk result (IsOneMore (J.lines journal.old) (J.lines journal.new)) }
{
    journal.add(&session.graph, facts, Vec::new(alloc))?;
    with_newline(text)
}

// Passes a line that was evaluated to the journal, and returns its reply with byte 10 after it.
fn tell_reply<J: Runs>(
    session: &Session,
    journal: &mut J,
    request: &Request<'_>,
    reply: Reply,
) -> Result<String, Memory>
    ensures text { IfOk result (λ t. string_bytes t ≡ string_bytes reply.text ++ 10 ∷ []) }
    ensures kept { OnOk result (J.kept journal.new ≡ J.kept journal.old ++ reply.runs.items) }
    ensures told { OnOk result (IsOneMore (J.lines journal.old) (J.lines journal.new)) }
{
    let facts = LineFacts {
        word: Some(request_word(request)),
        outcome: LineOutcome::Evaluated,
    };
    journal.add(&session.graph, &facts, reply.runs)?;
    with_newline(reply.text)
}

// Passes an edit that was made to the journal, and returns its reply with byte 10 after it.
fn tell_edit<J: Runs>(
    alloc: Global,
    session: &Session,
    journal: &mut J,
    text: String,
    edit: &Edit<'_>,
) -> Result<String, Memory>
    ensures text { IfOk result (λ t. string_bytes t ≡ string_bytes text ++ 10 ∷ []) }
    ensures kept { OnOk result (J.kept journal.new ≡ J.kept journal.old ++ []) }
    ensures told { OnOk result (IsOneMore (J.lines journal.old) (J.lines journal.new)) }
{
    let facts = LineFacts {
        word: Some(edit_word(edit)),
        outcome: LineOutcome::Edited(edit),
    };
    tell_line(alloc, session, journal, text, &facts)
}

/// Replies to a line, with byte 10 after the reply, in at most `budget` turns. `journal` takes the facts of the line,
/// and what its evaluation ran. A stop leaves the files as they were, or with the line's edit made and its reply lost.
pub fn reply_to_line<J: Runs>(
    alloc: Global,
    session: &mut Session,
    journal: &mut J,
    line: &Line,
    budget: u64,
) -> Result<String, Stop>
    ensures answer { IfOk result (λ text. (whole : List ℕ)
        → HoldsLine line.now.bytes.items line.now.too_long whole → AddsLine whole budget session.old
        session.new (string_bytes text) (J.kept journal.old) (J.kept journal.new)) }
    ensures told { OnOk result (IsOneMore (J.lines journal.old) (J.lines journal.new)) }
    ensures lawful { IsConsistent session.old → IsConsistent session.new }
{
    if line.too_long {
        let facts = refused_facts(None, None, LINE_TOO_LONG);
        let text = refusal_text(alloc, LINE_TOO_LONG)?;
        return Ok(tell_line(alloc, session, journal, text, &facts)?);
    }
    let value = data_of(alloc, line.bytes.as_slice())?;
    let step = begin(alloc, session, &value)?;
    match step {
        LineKind::Refused(text, facts) => Ok(tell_line(alloc, session, journal, text, &facts)?),
        LineKind::Edited(text, edit) => Ok(tell_edit(alloc, session, journal, text, &edit)?),
        LineKind::Request(request) => {
            let reply = session.reply_to(&request, budget)?;
            Ok(tell_reply(session, journal, &request, reply)?)
        }
    }
}

/// Replies to a line as `reply_to_line` does, by one thread for each hand, one of which is the caller's. Returns the
/// hands too. After a stop they are dropped.
pub fn reply_to_line_with<H: LoadRules + Send + Drop, T: Threads + Wait + Sync, J: Runs>(
    runtime: &T,
    alloc: Global,
    session: &mut Session,
    journal: &mut J,
    line: &Line,
    hands: Vec<H>,
    budget: u64,
) -> Result<(Vec<H>, String), Stop>
    requires { IsHandCount (length hands.items) }
    ensures hands { IfOk result (λ done. length done.0.items ≡ length hands.items) }
    ensures counted { IfOk result (λ done. total H.turns done.0.items
        + turns_of (J.kept journal.old) ≡ total H.turns hands.items
        + turns_of (J.kept journal.new)) }
    ensures answer { IfOk result (λ done. (whole : List ℕ)
        → HoldsLine line.now.bytes.items line.now.too_long whole → AddsLine whole budget session.old
        session.new (string_bytes done.1) (J.kept journal.old) (J.kept journal.new)) }
    ensures told { OnOk result (IsOneMore (J.lines journal.old) (J.lines journal.new)) }
    ensures lawful { IsConsistent session.old → IsConsistent session.new }
{
    if line.too_long {
        let facts = refused_facts(None, None, LINE_TOO_LONG);
        let text = refusal_text(alloc, LINE_TOO_LONG)?;
        return Ok((hands, tell_line(alloc, session, journal, text, &facts)?));
    }
    let value = data_of(alloc, line.bytes.as_slice())?;
    let step = begin(alloc, session, &value)?;
    match step {
        LineKind::Refused(text, facts) => {
            Ok((hands, tell_line(alloc, session, journal, text, &facts)?))
        }
        LineKind::Edited(text, edit) => {
            Ok((hands, tell_edit(alloc, session, journal, text, &edit)?))
        }
        LineKind::Request(request) => {
            let (hands, reply) = session.reply_to_with(runtime, &request, hands, budget)?;
            Ok((hands, tell_reply(session, journal, &request, reply)?))
        }
    }
}
