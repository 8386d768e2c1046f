//! The closing of stalls.
ghost use Rattle.std.specs.Prelude.{◌≡◌, OnOk, OnErr, None, Option};
ghost use Rattle.keys.specs.declared.key.Key.{Key};
ghost use Rattle.keys.specs.declared.value.Value.{Value};
ghost use Rattle.round_nodes.specs.TurnCounts.{MakesNoTurn};
ghost use Rattle.round_nodes.specs.Nodes.{node_at};
ghost use Rattle.round.specs.Closing.{IsIdle};
ghost use Rattle.round.specs.Moves.{Ends, KeepsOpened, IsInOrder};

use crate::closing::close_all;
use crate::cycles::entries_of;
use base_types::Memory;
use node::Graph;
use round_nodes::OpenNodes;
use std::alloc::Global;

/// Settles all open nodes at a stall, each with the value of the cycle into which it leads. Returns `Memory` if an
/// allocation fails; the graph is then as before.
pub fn close_cycles(alloc: Global, graph: &mut Graph, table: &mut OpenNodes) -> Result<(), Memory>
    requires whole { IsInOrder graph.old table.old }
    requires idle { IsIdle table.old }
    ensures none { OnOk result ((k : Key) → node_at table.new.nodes k ≡ None) }
    ensures keeps { OnOk result (KeepsOpened graph.old graph.new table.old table.new) }
    ensures turns { OnOk result (MakesNoTurn table.old table.new) }
    ensures truth { (read : Key → Option Value) → Ends read graph.old graph.new table.old table.new
        result }
    ensures refused { OnErr result (graph.new ≡ graph.old) }
{
    let stall = close_all(alloc, graph, table)?;
    let entries = entries_of(alloc, graph, stall)?;
    graph.record_all(entries)?;
    Ok(())
}
