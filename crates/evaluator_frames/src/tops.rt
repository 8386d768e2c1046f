//! How the statements of a file go on.
ghost use Rattle.std.specs.Prelude.{◌<◌, ◌+◌};
ghost use Rattle.evaluator_state.specs.View.{world_of};
ghost use Rattle.evaluator_frames.specs.Going.{GetsLighter, LeadsOn};
ghost use Rattle.evaluator_frames.specs.Frames.{Goes, on, machine_does, tops_at, tops_line};
ghost use Rattle.evaluator_frames.specs.Weight.{frames_weight, control_weight};
ghost use Rattle.evaluator_frames.specs.declared.frame.Control.TheVariants as c;

use crate::frame::{Control, Exit, Frame, Signal};
use crate::items::begin_above;
use crate::stack::push;
use crate::statements::{begin_stmt, line_of};
use evaluator_state::{Position, State, tick};
use std::alloc::Global;
use std::sync::Arc;
use syntax_tree::{Def, File, Top};
use values_heap::{Halt, Val};

/// Goes on with the statements of a file.
#[tactic(auto, unfolding(evaluator_semantics::specs::World::tick))]
pub fn next_top(
    state: &mut State,
    frames: &mut Vec<Frame>,
    at: &Position,
    file: Arc<File, Global>,
    next: usize,
) -> Result<Control, Halt>
    ensures goes { LeadsOn at.now (tops_line (tops_at next file))
        (λ env n here. machine_does env n here (c.Tops file next) frames.old.items
        (world_of state.old)) result frames.new.items state.new }
    ensures lighter { GetsLighter state.old (frames_weight frames.old.items + 1) result
        frames.new.items state.new }
{
    if next >= file.tops.len() {
        return Ok(Control::Signal(Signal::Exit(Exit::GoesOn)));
    }
    let again = Arc::try_clone(&file)?;
    push(
        frames,
        Frame::Tops {
            file: again,
            next: next + 1,
        },
    )?;
    match &file.tops[next] {
        Top::Stmt(stmt) => begin_stmt(state, frames, at, line_of(stmt), stmt),
        Top::Def(def) => {
            tick(&mut state.heap)?;
            let line = def.line;
            Ok(Control::Defaults {
                line,
                def: Arc::try_clone(def)?,
                next: 0,
                done: Vec::new(state.heap.alloc),
            })
        }
    }
}

/// Goes on with the defaults of a function.
pub fn next_default(
    state: &mut State,
    frames: &mut Vec<Frame>,
    at: &Position,
    line: usize,
    def: Arc<Def, Global>,
    next: usize,
    done: Vec<Val>,
) -> Result<Control, Halt>
    ensures goes { LeadsOn at.now line
        (λ env n here. machine_does env n here (c.Defaults line def next done) frames.old.items
        (world_of state.old)) result frames.new.items state.new }
    ensures lighter { GetsLighter state.old (frames_weight frames.old.items + control_weight
        (c.Defaults line def next done)) result frames.new.items state.new }
{
    if next >= def.params.len() {
        return Ok(Control::Define {
            line,
            def,
            defaults: done,
        });
    }
    let again = Arc::try_clone(&def)?;
    match &def.params[next].default {
        Some(e) => {
            let frame = Frame::Default {
                line,
                def: again,
                next: next + 1,
                done,
            };
            begin_above(state, frames, at, frame, line, e)
        }
        None => Ok(Control::Defaults {
            line,
            def: again,
            next: next + 1,
            done,
        }),
    }
}
