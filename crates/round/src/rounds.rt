//! A round: one evaluation, turn by turn, and its caller on one thread, within a budget of turns.
ghost use Rattle.std.specs.Prelude.{◌≡◌, ◌∷◌, List, length, Option, Some, None, Ok, Err, true, false, [], IfOk, IfErr, OnOk, OnErr, IfSome, IfNone, IsTrue, ◌+◌, ℕ, IsErrOf};
ghost use Rattle.std.specs.Bool.{Decides};
ghost use Rattle.std.specs.List.{All};
ghost use Rattle.std.specs.BTreeMap.Range.{IsLeBy};
ghost use Rattle.base_types.specs.declared.memory.Memory.{Memory};
ghost use Rattle.node.specs.Graphs.{GraphView};
ghost use Rattle.round.specs.NodeStates.{PutsState, HasState, DropsState};
ghost use Rattle.engine_semantics.specs.Reply.{Reply};
ghost use Rattle.engine_semantics.specs.Choices.{Hand, Back, Drop};
ghost use Rattle.engine_semantics.specs.Value.{In};
ghost use Rattle.keys.specs.Leaves as leaves;
ghost use Rattle.keys.specs.Jobs.{Made};
ghost use Rattle.keys.specs.Keys.{key_cmp};
ghost use Rattle.keys.specs.declared.key.Key.{Key};
ghost use Rattle.keys.specs.declared.value.Value.{Value};
ghost use Rattle.round_nodes.specs.TurnCounts.{HasMade, MakesNoTurn, turns_of};
ghost use Rattle.round_nodes.specs.Nodes.{IsOpen};
ghost use Rattle.round_nodes.specs.Invariants.{KeepsInvariantBy};
ghost use Rattle.round.specs.Choosing.{ForChoices, Follows, IsFollowing};
ghost use Rattle.round.specs.Since.{HoldsSince, IsAfterSince};
ghost use Rattle.round.specs.Moves.{Ends};
ghost use Rattle.round.specs.Rounds.{round_view, AgreesWith, IsStalled, CanDrop, IsAsBefore, IsOfJobOut, NoneOpen, EndsWith, Refuses, TakesBack, KeepsAllJobs};
ghost use Rattle.round.specs.Turning.{IsOutAt};
ghost use Rattle.round.specs.Call.{Calls, HasOpenRoot, HasTurnToMake};
ghost use Rattle.round.specs.Here.{TurnsOnce, Finishes};
ghost use Rattle.round.specs.RoundCalls.{HandsTruly, DropsTruly, HandsOutJob, FollowsJob, HandsIfPossible, TakesTurnBack, KeepsJobsBut, IsOutIfTaken, IsNotOutIfStranger, FollowsIfTaken, DropsIfPossible, FollowsDrop, HasRootsOpenOrSettled};
ghost use Rattle.round.specs.Counts.{GrowsWithin, CountsRuns};
ghost use Rattle.round.specs.declared.stop.Stop.{Stop};

use crate::close::close_cycles;
use crate::out_keys::OutKeys;
use crate::stop::Stop;
use crate::turns::{accept_turn, is_out_with, take_job, values_needed};
use crate::visiting::{is_open, open_all, visit_all};
use base_types::Memory;
use filetree::Tree;
use indexmap::IndexMap;
use keys::{Job, Key, PausedNode, Rules, Turned};
use node::Graph;
use round_nodes::{Nodes, OpenNodes, Run, set_out, share_all};
use std::alloc::Global;

/// One evaluation of roots, turn by turn. It keeps neither the graph nor the tree: each of its calls must get the same
/// ones, which nothing else changes meanwhile (the round agrees with the graph). Between two turns of a node its state
/// is kept. A contract sees the roots, the open nodes with the runs so far, and the keys whose jobs are out.
pub struct Round<R: Rules> {
    alloc: Global,
    roots: Vec<Key>,
    table: OpenNodes,
    out: OutKeys,
    kept: IndexMap<Key, PausedNode<R>>,
}

impl<R: Rules> Drop for Round<R> {
    fn drop(self) {
        let Round {
            alloc: _,
            roots: _,
            table: _,
            out: _,
            kept: _,
        } = self;
    }
}

/// Why a turn was not taken back.
#[derive(Drop)]
pub enum TakeBackError<R: Rules> {
    /// It belongs to no job that is out. The turn is returned, and nothing has changed.
    Stranger(Turned<R>),
    /// An allocation failed, in the turn or now. The round can then only be dropped.
    Memory(Memory),
}

impl<R: Rules> From<Memory> for TakeBackError<R> {
    ghost use Rattle.std.specs.Prelude.{◌≡◌};
    ghost use Rattle.round.specs.declared.rounds.TakeBackError.TheVariants as not_taken;
    ghost use Rattle.base_types.specs.Refusals.{memory};

    ghost from_gives = { λ _ e. e ≡ not_taken.Memory memory };

    fn from(error: Memory) -> TakeBackError<R> {
        TakeBackError::Memory(error)
    }
}

// Keeps the state, if there is one.
fn keep_state<R: Rules>(
    kept: &mut IndexMap<Key, PausedNode<R>>,
    paused: Option<PausedNode<R>>,
) -> Result<(), Memory>
    ensures { (key : Key) → IfSome paused (λ w. w.key ≡ key)
        → OnOk result (PutsState kept.old kept.new key paused) }
{
    if let Some(waiting) = paused {
        let key = waiting.key().share()?;
        let _before = kept.insert(key, waiting)?;
    }
    Ok(())
}

// Discards the state that was kept of a key. Returns whether there was one.
fn discard_state<R: Rules>(kept: &mut IndexMap<Key, PausedNode<R>>, key: &Key) -> bool
    ensures given { Decides result (HasState kept.old key.now) }
    ensures drops { DropsState kept.old kept.new key.now result }
{
    kept.swap_remove(key).is_some()
}

// Returns whether one of the keys is open.
fn any_open(nodes: &Nodes, keys: &[Key]) -> bool
    ensures open { IsTrue result → (k : Key) × In k keys.now × IsOpen nodes.now k }
    ensures none { result ≡ false → (k : Key) → In k keys.now → IsOpen nodes.now k → ⊥ }
{
    for key in keys {
        if is_open(nodes, key) {
            return true;
        }
    }
    false
}

impl<R: Rules> Round<R> {
    /// Opens a round: opens the roots, reads the leaves among them, and settles each node that needs no turn. Returns
    /// `Memory` if an allocation fails; the graph is then still consistent, as after a stop.
    pub fn open(
        alloc: Global,
        graph: &mut Graph,
        tree: &Tree,
        roots: Vec<Key>,
    ) -> Result<Round<R>, Memory>
        ensures beside { IfOk result (λ round. AgreesWith graph.new round) }
        ensures begins { IfOk result (λ round. ((round_view round).roots ≡ roots.items)
            × ((round_view round).out ≡ [])) }
        ensures made { IfOk result (λ round. HasMade round.table 0) }
        ensures follows { IfOk result (λ round. Follows [] (round_view round) round.kept) }
        ensures truth { IfOk result (λ round. (next : Key → List Value → Reply Key Value)
            → HoldsSince [] next (leaves.read tree.now) roots.items graph.old graph.new
            round.table) }
        ensures stopped { OnErr result ((next : Key → List Value → Reply Key Value)
            → IsAfterSince next (leaves.read tree.now) roots.items graph.old graph.new) }
    {
        let mut table = OpenNodes::new(alloc);
        open_all(alloc, graph, tree, &mut table, roots.as_slice())?;
        visit_all(alloc, graph, tree, &mut table)?;
        Ok(Round {
            alloc,
            roots,
            table,
            out: OutKeys::new(),
            kept: IndexMap::new(alloc),
        })
    }

    /// Returns the least key whose next turn can be handed out. It allocates nothing.
    pub fn ready(&self) -> Option<&Key>
        ensures some { IfSome result (λ k. In k.now (round_view self.now).table.ready.keys) }
        ensures none { IfNone result ((round_view self.now).table.ready.keys ≡ []) }
        ensures least { IfSome result
            (λ k. All (IsLeBy key_cmp k.now) (round_view self.now).table.ready.keys) }
    {
        self.table.ready.first()
    }

    /// Returns for how many keys the next turn can be handed out. It allocates nothing.
    pub fn ready_count(&self) -> usize
        ensures { result ≡ length (round_view self.now).table.ready.keys }
    {
        self.table.ready.len()
    }

    /// Hands out the next turn of a key, with all answers so far. Returns `None` exactly if the key is not ready. In
    /// that case it does not run, or is settled, or its job is out, or the last group that it asked for is not settled
    /// with values. Returns `Memory` if an allocation fails; the round is then as before.
    pub fn hand_out(&mut self, graph: &Graph, key: &Key) -> Result<Option<Job<R>>, Memory>
        requires { AgreesWith graph.now self.old }
        ensures beside { AgreesWith graph.now self.new }
        ensures hands { IfOk result (HandsOutJob graph.now key.now self.old self.new) }
        ensures truth { HandsTruly graph.now key.now self.old.table self.new.table result }
        ensures follows { IfOk result (FollowsJob key.now self.old self.new) }
        ensures possible { HandsIfPossible graph.now key.now self.old result }
        ensures refused { OnErr result (IsAsBefore self.old self.new) }
        ensures others { OnOk result
            (KeepsAllJobs graph.now (round_view self.old) (round_view self.new)) }
    {
        let needed = values_needed(self.alloc, graph, &self.table, &self.kept, key)?;
        let Some(found) = needed else {
            return Ok(None);
        };
        let name = key.share()?;
        self.out.add(key)?;
        match take_job(&mut self.kept, name, found) {
            Ok(job) => {
                set_out(&mut self.table, key);
                Ok(Some(job))
            }
            Err(error) => {
                self.out.remove(key);
                Err(error)
            }
        }
    }

    /// Takes a turn back: its node is settled, or asks for its next group. Then each node that needs no turn is
    /// settled. Returns `Stranger` exactly if its key and answers are of no job that is out. Returns `Memory` if an
    /// allocation failed, in the turn or now. The round can then only be dropped, and the graph is as after a stop.
    pub fn take_back(
        &mut self,
        graph: &mut Graph,
        tree: &Tree,
        turned: Turned<R>,
    ) -> Result<(), TakeBackError<R>>
        requires { AgreesWith graph.old self.old }
        ensures beside { OnOk result (AgreesWith graph.new self.new) }
        ensures back { OnOk result (TakesTurnBack graph.old self.old self.new turned) }
        ensures truth { KeepsInvariantBy (Back turned.asked.key ∷ []) R.next (leaves.read tree.now)
            graph.old graph.new self.old.table self.new.table result }
        ensures others { OnOk result (KeepsJobsBut turned graph.old graph.new self.old self.new) }
        ensures possible { IsOutIfTaken graph.old self.old turned result }
        ensures strange { IsNotOutIfStranger graph.old self.old turned result }
        ensures follows { FollowsIfTaken graph.old turned self.old self.new result }
        ensures refused { IfErr result (Refuses graph.old graph.new self.old self.new turned) }
    {
        if !is_out_with(self.alloc, graph, &self.table, &turned)? {
            return Err(TakeBackError::Stranger(turned));
        }
        self.take_known(graph, tree, turned)?;
        Ok(())
    }

    /// Takes back a turn that the caller knows to be of a job that is out, without comparing its answers. Returns
    /// `Memory` if an allocation failed, in the turn or now. The round can then only be dropped, and the graph is as
    /// after a stop.
    pub fn take_known(
        &mut self,
        graph: &mut Graph,
        tree: &Tree,
        turned: Turned<R>,
    ) -> Result<(), Memory>
        requires beside { AgreesWith graph.old self.old }
        requires out { IsOfJobOut graph.old (round_view self.old) turned.asked }
        ensures beside { OnOk result (AgreesWith graph.new self.new) }
        ensures back { OnOk result
            (TakesBack (round_view self.old) (round_view self.new) turned.asked.key) }
        ensures made { OnOk result (turned.ending ≡ Made) }
        ensures follows { FollowsIfTaken graph.old turned self.old self.new result }
        ensures others { OnOk result (KeepsJobsBut turned graph.old graph.new self.old self.new) }
        ensures truth { KeepsInvariantBy (Back turned.asked.key ∷ []) R.next (leaves.read tree.now)
            graph.old graph.new self.old.table self.new.table result }
    {
        self.out.remove(turned.key());
        let paused = accept_turn(self.alloc, graph, &mut self.table, turned)?;
        visit_all(self.alloc, graph, tree, &mut self.table)?;
        keep_state(&mut self.kept, paused)?;
        Ok(())
    }

    /// Discards the kept state of a node, whose next turn then begins from scratch, with all answers. Returns whether
    /// it did, which is exactly if a state is kept and the round is not at a stall. Otherwise nothing changes. It
    /// allocates nothing.
    pub fn drop_state(&mut self, key: &Key) -> bool
        ensures dropped { Decides result (CanDrop (round_view self.old) self.old.kept key.now) }
        ensures not_out { (graph : GraphView) → AgreesWith graph self.old → IsTrue result
            → IsOutAt self.old.table key.now → ⊥ }
        ensures kept { DropsState self.old.kept self.new.kept key.now result }
        ensures possible { DropsIfPossible key.now self.old result }
        ensures follows { IsTrue result → FollowsDrop key.now self.old self.new }
        ensures truth { DropsTruly key.now self.old.table self.new.table }
        ensures same { round_view self.new ≡ round_view self.old }
        ensures beside { (graph : GraphView) → AgreesWith graph self.old
            → AgreesWith graph self.new }
    {
        if self.stalled() {
            return false;
        }
        discard_state(&mut self.kept, key)
    }

    /// Returns whether no turn can be handed out and no job is out. It allocates nothing.
    pub fn stalled(&self) -> bool
        ensures { Decides result (IsStalled (round_view self.now)) }
    {
        self.table.ready.len() == 0 && self.out.is_empty()
    }

    /// Settles all open nodes at a stall, each with the cycle into which it leads, all or none. Returns `Memory` if an
    /// allocation fails. The round can then only be dropped, and the graph is as before.
    pub fn close_cycles(&mut self, graph: &mut Graph) -> Result<(), Memory>
        requires beside { AgreesWith graph.old self.old }
        requires stalled { IsStalled (round_view self.old) }
        ensures none { OnOk result (NoneOpen (round_view self.new)) }
        ensures wanted { OnOk result (HasRootsOpenOrSettled graph.new self.new) }
        ensures same { ((round_view self.new).roots ≡ (round_view self.old).roots)
            × ((round_view self.new).out ≡ (round_view self.old).out) }
        ensures turns { OnOk result (MakesNoTurn self.old.table self.new.table) }
        ensures truth { (read : Key → Option Value) → Ends read graph.old graph.new self.old.table
            self.new.table result }
        ensures refused { OnErr result (graph.new ≡ graph.old) }
    {
        close_cycles(self.alloc, graph, &mut self.table)?;
        self.kept = IndexMap::new(self.alloc);
        Ok(())
    }

    /// Returns the runs in the order of settling if no root is open any more, and the round itself if one is. If no
    /// root is open, no turn can be handed out and no job is out. It allocates nothing.
    pub fn finish(self) -> Result<Vec<Run>, Round<R>>
        ensures done { IfOk result (λ runs. EndsWith (round_view self) (Ok runs.items)) }
        ensures open { IfErr result (λ round. EndsWith (round_view self) (Err (round_view round))) }
        ensures same { IfErr result (λ round. round ≡ self) }
        ensures stalled { (read : Key → Option Value) (graph : GraphView) → AgreesWith graph self
            → ForChoices read graph (round_view self) (λ next past cs. IsFollowing cs self
            → IfOk result (λ runs. IsStalled (round_view self))) }
    {
        if any_open(&self.table.nodes, self.roots.as_slice()) {
            return Err(self);
        }
        let Round {
            alloc: _,
            roots: _,
            table,
            out: _,
            kept: _,
        } = self;
        Ok(runs_of(table))
    }
}

// Returns the runs of a table.
fn runs_of(table: OpenNodes) -> Vec<Run>
    ensures { result.items ≡ table.runs.items }
{
    let OpenNodes {
        nodes: _,
        ready: _,
        queue: _,
        visited: _,
        runs,
    } = table;
    runs
}

/// Returns a copy of the least key whose next turn can be handed out, or `None` if there is none. Returns `Memory` if
/// an allocation fails.
pub fn next_key<R: Rules>(round: &Round<R>) -> Result<Option<Key>, Memory>
    ensures some { IfOk result
        (λ k. IfSome k (λ key. In key (round_view round.now).table.ready.keys)) }
    ensures none { IfOk result (λ k. IfNone k ((round_view round.now).table.ready.keys ≡ [])) }
    ensures least { IfOk result
        (λ k. IfSome k (λ key. All (IsLeBy key_cmp key) (round_view round.now).table.ready.keys)) }
{
    match round.ready() {
        None => Ok(None),
        Some(key) => Ok(Some(key.share()?)),
    }
}

/// Returns whether the next turn of some key can be handed out. It allocates nothing.
pub fn has_ready<R: Rules>(round: &Round<R>) -> bool
    ensures yes { IsTrue result → (k : Key) × In k (round_view round.now).table.ready.keys }
    ensures no { result ≡ false → (round_view round.now).table.ready.keys ≡ [] }
{
    round.ready().is_some()
}

/// Makes the next turn of a key that is ready by these rules, on this thread: it is handed out, made and taken back.
/// Returns `Memory` if an allocation fails. The round can then only be dropped, and the graph is as after a stop.
pub fn make_turn<R: Rules>(
    round: &mut Round<R>,
    graph: &mut Graph,
    tree: &Tree,
    rules: &mut R,
    key: &Key,
) -> Result<(), Memory>
    requires beside { AgreesWith graph.old round.old }
    requires ready { In key.now (round_view round.old).table.ready.keys }
    ensures turns { OnOk result (TurnsOnce graph.old graph.new round.old round.new) }
    ensures counted { OnOk result (R.turns rules.new ≡ R.turns rules.old + 1) }
    ensures at_most { GrowsWithin 1 (R.turns rules.old) (R.turns rules.new) }
    ensures truth { KeepsInvariantBy (Back key.now ∷ Hand key.now ∷ []) R.next (leaves.read
        tree.now) graph.old graph.new round.old.table round.new.table result }
{
    match round.hand_out(graph, key)? {
        None => unreachable!(),
        Some(job) => {
            let turned = job.make(rules);
            round.take_known(graph, tree, turned)?;
            Ok(())
        }
    }
}

/// Closes the open nodes of a round at a stall, and returns its runs. Returns `Memory` if an allocation fails; the
/// graph is then as after a stop.
pub fn close_stall<R: Rules>(mut round: Round<R>, graph: &mut Graph) -> Result<Vec<Run>, Memory>
    requires beside { AgreesWith graph.old round }
    requires stalled { IsStalled (round_view round) }
    ensures made { IfOk result (λ runs. (made : ℕ) → HasMade round.table made
        → made ≡ turns_of runs.items) }
    ensures law { IfOk result
        (λ runs. (read : Key → Option Value) (next : Key → List Value → Reply Key Value)
        → Finishes {E = Stop} next read graph.old graph.new (round_view round) (Ok runs.items)) }
    ensures stopped { IfErr result
        (λ e. (read : Key → Option Value) (next : Key → List Value → Reply Key Value)
        → Finishes {E = Memory} next read graph.old graph.new (round_view round) (Err e)) }
{
    round.close_cycles(graph)?;
    match round.finish() {
        Ok(runs) => Ok(runs),
        Err(_) => unreachable!(),
    }
}

/// Evaluates the roots over the graph on one thread, in at most `budget` turns of the rules. Each root is then settled
/// with its value at the tree's files. Returns the runs of this call, in the order in which their nodes were settled.
///
/// A node with a dirty record checks the groups of its record in their order. If no member has changed since, it is
/// settled without a turn, and at the first group with a changed member it runs. If no turn can be made any more, the
/// open nodes lead into cycles, and are settled with these.
///
/// Returns `Stop::Budget` if the budget is spent and a further turn is to be made. The round is then at no stall, and a
/// root is still open. Returns `Stop::Memory` if an allocation fails. After a stop the graph is consistent for the same
/// history, no record is lost, and only nodes that were settled have new ones. The tree must be the last of the history
/// for which the graph is consistent.
pub fn evaluate_here<R: Rules>(
    alloc: Global,
    graph: &mut Graph,
    tree: &Tree,
    roots: &[Key],
    rules: &mut R,
    budget: u64,
) -> Result<Vec<Run>, Stop>
    ensures law { IfOk result (λ runs. Calls R.next (leaves.read tree.now) roots.now graph.old
        graph.new (Ok runs.items)) }
    ensures stopped { IfErr result (λ e. Calls R.next (leaves.read tree.now) roots.now graph.old
        graph.new (Err e)) }
    ensures turns { IfOk result (CountsRuns (R.turns rules.old) (R.turns rules.new)) }
    ensures budget { IsErrOf result Stop.Budget → (R.turns rules.new ≡ R.turns rules.old + budget)
        × HasOpenRoot R.next (leaves.read tree.now) roots.now graph.old graph.new }
    ensures spent { IsErrOf result Stop.Budget → HasTurnToMake R.next (leaves.read tree.now)
        roots.now graph.old graph.new }
    ensures at_most { GrowsWithin budget (R.turns rules.old) (R.turns rules.new) }
{
    let roots = share_all(alloc, roots)?;
    let mut round: Round<R> = Round::open(alloc, graph, tree, roots)?;
    for _made in 0..budget {
        match next_key(&round)? {
            None => return Ok(close_stall(round, graph)?),
            Some(key) => make_turn(&mut round, graph, tree, rules, &key)?,
        }
    }
    if has_ready(&round) {
        return Err(Stop::Budget);
    }
    Ok(close_stall(round, graph)?)
}
