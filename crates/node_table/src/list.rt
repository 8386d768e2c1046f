//! Lists of numbers, most of which are short.
ghost use Rattle.std.specs.Prelude.{◌≡◌, ◌++◌, ◌∷◌, [], ◌==◌, not, filter, IfOk, OnOk, OnErr};
ghost use Rattle.node_table.specs.Lists.{in_order};

use crate::number::NodeId;
use base_types::Memory;
use std::alloc::Global;
use std::marker::Model;

// Numbers in the value itself, or in memory of their own.
#[derive(Drop)]
enum Numbers {
    Empty,
    One([NodeId; 1]),
    Two([NodeId; 2]),
    Many(Box<Vec<NodeId>>),
}

/// A list of numbers. Up to two of them are in the list itself, so most lists take no memory of their own. A contract
/// sees the numbers.
#[derive(Drop)]
pub struct NodeIdList {
    alloc: Global,
    numbers: Numbers,
}

impl Model for NodeIdList {
    ghost use Rattle.std.specs.Prelude.{ℕ, List};
    ghost use Rattle.node_table.specs.Lists.{in_order};

    ghost Value = { List ℕ };

    ghost view = { λ l. in_order l.numbers };
}

// Returns a list of two numbers and a third one.
fn three(alloc: Global, pair: [NodeId; 2], id: NodeId) -> Result<Box<Vec<NodeId>>, Memory>
    ensures { IfOk result (λ list. list.value.items ≡ pair ++ id ∷ []) }
{
    let list = Vec::from_slice(alloc, &[pair[0], pair[1], id])?;
    Ok(Box::new(alloc, list)?)
}

// Returns those of two numbers that are not this one.
fn others(pair: [NodeId; 2], id: NodeId) -> Numbers
    ensures { in_order result ≡ filter (λ n. not (n == id)) pair }
{
    let first = pair[0].place() == id.place();
    let second = pair[1].place() == id.place();
    if first && second {
        Numbers::Empty
    } else if first {
        Numbers::One([pair[1]])
    } else if second {
        Numbers::One([pair[0]])
    } else {
        Numbers::Two(pair)
    }
}

impl NodeIdList {
    /// Makes an empty list.
    pub fn new(alloc: Global) -> NodeIdList
        ensures { result ≡ [] }
    {
        NodeIdList {
            alloc,
            numbers: Numbers::Empty,
        }
    }

    /// Returns the numbers.
    pub fn as_slice(&self) -> &[NodeId]
        ensures { result.now ≡ self.now }
    {
        match &self.numbers {
            Numbers::Empty => &[],
            Numbers::One(one) => one.as_slice(),
            Numbers::Two(pair) => pair.as_slice(),
            Numbers::Many(list) => list.as_slice(),
        }
    }

    /// Adds a number at the end. Returns `Memory` if an allocation fails; the list is then as before.
    pub fn push(&mut self, id: NodeId) -> Result<(), Memory>
        ensures ok { OnOk result (self.new ≡ self.old ++ id ∷ []) }
        ensures err { OnErr result (self.new ≡ self.old) }
    {
        match &mut self.numbers {
            Numbers::Empty => {
                self.numbers = Numbers::One([id]);
            }
            Numbers::One(one) => {
                self.numbers = Numbers::Two([one[0], id]);
            }
            Numbers::Two(pair) => {
                self.numbers = Numbers::Many(three(self.alloc, *pair, id)?);
            }
            Numbers::Many(list) => list.push(id)?,
        }
        Ok(())
    }

    /// Removes a number, as often as it is there.
    pub fn remove(&mut self, id: NodeId)
        ensures { self.new ≡ filter (λ n. not (n == id)) self.old }
    {
        match &mut self.numbers {
            Numbers::Empty => {}
            Numbers::One(one) => {
                if one[0].place() == id.place() {
                    self.numbers = Numbers::Empty;
                }
            }
            Numbers::Two(pair) => {
                self.numbers = others(*pair, id);
            }
            Numbers::Many(list) => list.retain(|n| n.place() != id.place()),
        }
    }
}
