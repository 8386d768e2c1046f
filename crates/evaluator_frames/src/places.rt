//! The line of the statement that a frame or a control stands in.
ghost use Rattle.std.specs.Prelude.{◌≡◌, drop, map};
ghost use Rattle.syntax_tree.specs.Statements.{stmts_of, branch_trees, top_of};
ghost use Rattle.evaluator_frames.specs.Frames.{frame_line, control_line, suite_line, first_line, tops_line};

use crate::frame::{Control, Frame};
use crate::statements::line_of;
use syntax_tree::{Branch, File, Stmt, Top};

/// Returns the line of the statement that a frame stands in, or `base` if the frame has none.
pub fn frame_line(frame: &Frame, base: usize) -> usize
    ensures { result ≡ frame_line base frame.now }
{
    match frame {
        Frame::Items { line, .. } => *line,
        Frame::Key { line, .. } => *line,
        Frame::Entry { line, .. } => *line,
        Frame::Unary { line, .. } => *line,
        Frame::Right { line, .. } => *line,
        Frame::Both { line, .. } => *line,
        Frame::Choice { line, .. } => *line,
        Frame::Indexed { line, .. } => *line,
        Frame::Index { line, .. } => *line,
        Frame::Sliced { line, .. } => *line,
        Frame::From { line, .. } => *line,
        Frame::To { line, .. } => *line,
        Frame::Called { line, .. } => *line,
        Frame::On { line, .. } => *line,
        Frame::Container { line, .. } => *line,
        Frame::Member { line, .. } => *line,
        Frame::Aims { line, .. } => *line,
        Frame::Assign { line, .. } => *line,
        Frame::Store { line, .. } => *line,
        Frame::Augment { line, .. } => *line,
        Frame::Change { line, .. } => *line,
        Frame::For { line, .. } => *line,
        Frame::Turn(turns, _) => turns.line,
        Frame::Turns(turns) => turns.line,
        Frame::First { line, .. } => *line,
        Frame::Each { line, .. } => *line,
        Frame::Only { line, .. } => *line,
        Frame::Aimed(turns, _, _) => turns.line,
        Frame::Gather(turns) => turns.line,
        Frame::OneMore { line, .. } => *line,
        Frame::OneKey { line, .. } => *line,
        Frame::OneEntry { line, .. } => *line,
        Frame::MakeList(line) => *line,
        Frame::MakeDict(line) => *line,
        Frame::Default { line, .. } => *line,
        _ => base,
    }
}

// Returns the line of the statement of a suite at a place, or 0 behind the last.
fn line_in(ss: &Vec<Stmt>, next: usize) -> usize
    ensures { result ≡ suite_line (stmts_of (drop next ss.now.items)) }
{
    match ss.get(next) {
        Some(stmt) => line_of(stmt),
        None => 0,
    }
}

// Returns the line of the branch at a place, or 0 behind the last.
fn line_among(bs: &Vec<Branch>, next: usize) -> usize
    ensures { result ≡ first_line (branch_trees (drop next bs.now.items)) }
{
    match bs.get(next) {
        Some(branch) => branch.line,
        None => 0,
    }
}

// Returns the line of the statement of a file at a place, or 0 behind the last.
fn line_of_tops(file: &File, next: usize) -> usize
    ensures { result ≡ tops_line (map top_of (drop next file.now.tops.items)) }
{
    match file.tops.get(next) {
        Some(Top::Stmt(stmt)) => line_of(stmt),
        Some(Top::Def(def)) => def.line,
        None => 0,
    }
}

/// Returns the line of the statement that a control stands in, or `base` if it is a signal.
pub fn control_line(control: &Control, base: usize) -> usize
    ensures { result ≡ control_line base control.now }
{
    match control {
        Control::Signal(_) => base,
        Control::Suite { suite: ss, next } => line_in(ss, *next),
        Control::Branches {
            branches: bs,
            next,
            ..
        } => line_among(bs, *next),
        Control::Turns(turns) => turns.line,
        Control::Gather(turns, _) => turns.line,
        Control::Tops { file, next } => line_of_tops(file, *next),
        Control::Eval { line, .. } => *line,
        Control::Items { line, .. } => *line,
        Control::Entries { line, .. } => *line,
        Control::Aim { line, .. } => *line,
        Control::Aims { line, .. } => *line,
        Control::Clauses { line, .. } => *line,
        Control::First { line, .. } => *line,
        Control::Enter { line, .. } => *line,
        Control::Builtin { line, .. } => *line,
        Control::Method { line, .. } => *line,
        Control::Package { line, .. } => *line,
        Control::Add { line, .. } => *line,
        Control::Defaults { line, .. } => *line,
        Control::Define { line, .. } => *line,
        Control::Fault { line, .. } => *line,
    }
}
