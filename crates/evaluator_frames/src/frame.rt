//! What a machine keeps while it runs.

use base_types::Text;
use evaluator_state::{Block, Collection, LValue, Position};
use indexmap::IndexMap;
use std::alloc::Global;
use std::sync::Arc;
use syntax_tree::{BinaryOp, Branch, Clause, Def, Expr, File, Stmt, UnaryOp};
use values_heap::{Builtin, Entry, Key, Val};

/// How a statement ends.
#[derive(Clone, Copy)]
pub enum Exit {
    GoesOn,
    Breaks,
    Continues,
    Returns(Val),
}

/// What ended: an expression with its value, a target with what it aims at, a statement, or a comprehension.
#[derive(Drop)]
pub enum Signal {
    Value(Val),
    Aim(LValue),
    Exit(Exit),
    Gathered(Box<Collection>),
}

/// What a method is called on.
#[derive(Clone, Copy)]
pub enum Receiver {
    Native,
    Of(Val),
}

/// What the values of several expressions are for.
#[derive(Drop)]
pub enum Purpose {
    Tuple,
    List,
    /// The function, and the names of the last arguments.
    Call(Val, Arc<Vec<Text>, Global>),
    Method(Receiver, Text, Arc<Vec<Text>, Global>),
}

/// What a comprehension gathers.
#[derive(Drop)]
pub enum Item {
    Member(Arc<Expr, Global>),
    Entry(Arc<Expr, Global>, Arc<Expr, Global>),
}

/// A comprehension.
#[derive(Drop)]
pub struct Comprehension {
    pub item: Item,
    pub clauses: Arc<Vec<Clause>, Global>,
}

/// A loop: its target, its body, what it goes over, the members, and which is next.
#[derive(Drop)]
pub struct Turns {
    pub line: usize,
    pub target: Arc<Expr, Global>,
    pub body: Arc<Vec<Stmt>, Global>,
    pub over: Val,
    pub items: Vec<Val>,
    pub next: usize,
}

/// A clause of a comprehension that goes over members.
#[derive(Drop)]
pub struct Gathering {
    pub line: usize,
    pub target: Arc<Expr, Global>,
    pub of: Arc<Comprehension, Global>,
    /// The clause behind this one.
    pub inner: usize,
    pub over: Val,
    pub items: Vec<Val>,
    pub next: usize,
}

/// Several expressions, the values of those done, and what they are for.
#[derive(Drop)]
pub struct Series {
    pub items: Arc<Vec<Expr>, Global>,
    pub done: Vec<Val>,
    pub purpose: Purpose,
}

/// The keys and values of a dictionary, and the entries done.
#[derive(Drop)]
pub struct Pairs {
    pub keys: Arc<Vec<Expr>, Global>,
    pub values: Arc<Vec<Expr>, Global>,
    pub done: IndexMap<Key, Entry>,
}

/// A call of a method: the receiver, the method, the arguments, and the names of the last ones.
#[derive(Drop)]
pub struct MethodCall {
    pub receiver: Val,
    pub name: Text,
    pub arguments: Vec<Val>,
    pub names: Arc<Vec<Text>, Global>,
}

/// Where a call goes back to: where the caller stands, its blocks, and how many more calls may be open there.
#[derive(Drop)]
pub struct Caller {
    pub at: Position,
    pub blocks: Vec<Block>,
    pub left: usize,
}

/// What waits for a signal. The first number is the line.
#[derive(Drop)]
pub enum Frame {
    /// For the value of an item.
    Items {
        line: usize,
        series: Box<Series>,
    },
    /// For a key, which is at the number.
    Key {
        line: usize,
        pairs: Box<Pairs>,
        next: usize,
    },
    /// For the value of a key; the entries behind it begin at the number.
    Entry {
        line: usize,
        pairs: Box<Pairs>,
        next: usize,
        key: Val,
    },
    Unary {
        line: usize,
        op: UnaryOp,
    },
    /// For the left value; the right operand is next.
    Right {
        line: usize,
        op: BinaryOp,
        right: Arc<Expr, Global>,
    },
    /// For the right value.
    Both {
        line: usize,
        op: BinaryOp,
        left: Val,
    },
    /// For a condition.
    Choice {
        line: usize,
        chosen: Arc<Expr, Global>,
        other: Arc<Expr, Global>,
    },
    /// For what is indexed; the index is next.
    Indexed {
        line: usize,
        index: Arc<Expr, Global>,
    },
    /// For an index.
    Index {
        line: usize,
        container: Val,
    },
    /// For what is sliced; the bounds are next.
    Sliced {
        line: usize,
        from: Option<Arc<Expr, Global>>,
        to: Option<Arc<Expr, Global>>,
    },
    /// For the lower bound.
    From {
        line: usize,
        container: Val,
        to: Option<Arc<Expr, Global>>,
    },
    /// For the upper bound.
    To {
        line: usize,
        container: Val,
        from: Val,
    },
    /// For a function; the arguments are next.
    Called {
        line: usize,
        arguments: Arc<Vec<Expr>, Global>,
        names: Arc<Vec<Text>, Global>,
    },
    /// For a receiver; the arguments are next.
    On {
        line: usize,
        name: Text,
        arguments: Arc<Vec<Expr>, Global>,
        names: Arc<Vec<Text>, Global>,
    },
    /// For the container of a target; the index is next.
    Container {
        line: usize,
        index: Arc<Expr, Global>,
    },
    /// For the index of a target.
    Member {
        line: usize,
        container: Val,
    },
    /// For one of several targets, after those done.
    Aims {
        line: usize,
        targets: Arc<Vec<Expr>, Global>,
        done: Vec<LValue>,
    },
    /// For a value that is left.
    Discard,
    /// For the value of an assignment.
    Assign {
        line: usize,
        target: Arc<Expr, Global>,
    },
    /// For the target of an assignment.
    Store {
        line: usize,
        value: Val,
    },
    /// For the target of an augmented assignment.
    Augment {
        line: usize,
        op: BinaryOp,
        right: Arc<Expr, Global>,
    },
    /// For the right side of an augmented assignment.
    Change {
        line: usize,
        op: BinaryOp,
        aim: Box<LValue>,
        old: Val,
    },
    Return,
    /// For the condition of a branch: its statements, the branches, which is next, and the other statements.
    Branch {
        body: Arc<Vec<Stmt>, Global>,
        branches: Arc<Vec<Branch>, Global>,
        next: usize,
        other: Arc<Vec<Stmt>, Global>,
    },
    /// For what a loop goes over.
    For {
        line: usize,
        target: Arc<Expr, Global>,
        body: Arc<Vec<Stmt>, Global>,
    },
    /// For the target of a turn, whose value is given.
    Turn(Box<Turns>, Val),
    /// For the end of a turn.
    Turns(Box<Turns>),
    /// For the end of a statement; the suite goes on at the number.
    Rest {
        suite: Arc<Vec<Stmt>, Global>,
        next: usize,
    },
    /// For the end of a call.
    Leave(Box<Caller>),
    /// For what a comprehension goes over first.
    First {
        line: usize,
        target: Arc<Expr, Global>,
        of: Arc<Comprehension, Global>,
    },
    /// For what a further clause goes over; the clause behind it is at the number.
    Each {
        line: usize,
        target: Arc<Expr, Global>,
        of: Arc<Comprehension, Global>,
        inner: usize,
        got: Box<Collection>,
    },
    /// For a condition; the clause behind it is at the number.
    Only {
        line: usize,
        of: Arc<Comprehension, Global>,
        inner: usize,
        got: Box<Collection>,
    },
    /// For the target of a turn of a clause, whose value is given.
    Aimed(Box<Gathering>, Val, Box<Collection>),
    /// For what a turn of a clause gathers.
    Gather(Box<Gathering>),
    /// For a member.
    OneMore {
        line: usize,
        got: Box<Collection>,
    },
    /// For a key; its value is next.
    OneKey {
        line: usize,
        value: Arc<Expr, Global>,
        got: Box<Collection>,
    },
    /// For the value of a key; the entries behind it begin at the number.
    OneEntry {
        line: usize,
        key: Val,
        got: Box<Collection>,
    },
    /// For the end of a block of a comprehension.
    EndBlock,
    MakeList(usize),
    MakeDict(usize),
    /// For the value of a default: the function, the parameter behind it, and the values done.
    Default {
        line: usize,
        def: Arc<Def, Global>,
        next: usize,
        done: Vec<Val>,
    },
    /// For the end of a statement of the file; the others begin at the number.
    Tops {
        file: Arc<File, Global>,
        next: usize,
    },
}

/// What the machine does next.
#[derive(Drop)]
pub enum Control {
    Signal(Signal),
    Eval {
        line: usize,
        expr: Arc<Expr, Global>,
    },
    Items {
        line: usize,
        series: Box<Series>,
    },
    Entries {
        line: usize,
        pairs: Box<Pairs>,
        next: usize,
    },
    Aim {
        line: usize,
        target: Arc<Expr, Global>,
    },
    Aims {
        line: usize,
        targets: Arc<Vec<Expr>, Global>,
        done: Vec<LValue>,
    },
    Suite {
        suite: Arc<Vec<Stmt>, Global>,
        next: usize,
    },
    Branches {
        branches: Arc<Vec<Branch>, Global>,
        next: usize,
        other: Arc<Vec<Stmt>, Global>,
    },
    Turns(Box<Turns>),
    Clauses {
        line: usize,
        of: Arc<Comprehension, Global>,
        inner: usize,
        got: Box<Collection>,
    },
    Gather(Box<Gathering>, Box<Collection>),
    /// A comprehension, whose first clause goes over a value.
    First {
        line: usize,
        target: Arc<Expr, Global>,
        of: Arc<Comprehension, Global>,
        value: Val,
    },
    /// A call of a function of a file: the place of the function, the arguments, and the names of the last ones.
    Enter {
        line: usize,
        place: usize,
        arguments: Vec<Val>,
        names: Arc<Vec<Text>, Global>,
    },
    /// A call of a built-in function.
    Builtin {
        line: usize,
        function: Builtin,
        arguments: Vec<Val>,
        names: Arc<Vec<Text>, Global>,
    },
    /// A call of a method. Boxed, so that what comes next is small.
    Method {
        line: usize,
        call: Box<MethodCall>,
    },
    /// A package call.
    Package {
        line: usize,
        function: Builtin,
        arguments: Vec<Val>,
        names: Arc<Vec<Text>, Global>,
    },
    /// `x += y`, where the target and both values are evaluated.
    Add {
        line: usize,
        aim: Box<LValue>,
        old: Val,
        right: Val,
    },
    /// The statements of a file from the number on.
    Tops {
        file: Arc<File, Global>,
        next: usize,
    },
    /// The defaults of a function from a parameter on, and the values done.
    Defaults {
        line: usize,
        def: Arc<Def, Global>,
        next: usize,
        done: Vec<Val>,
    },
    /// A function is bound, with the values of its defaults.
    Define {
        line: usize,
        def: Arc<Def, Global>,
        defaults: Vec<Val>,
    },
    /// A fault of a statement that was run ahead, or of a step that was made ahead.
    Fault {
        line: usize,
        code: u64,
    },
}

/// What a statement has done that was run at once.
#[derive(Drop)]
pub enum Once {
    /// It has ended, and the next one goes on.
    Done,
    /// A part of it is left.
    Begun(Control),
    /// It has stopped at a fault: the line, and the code.
    Faulty { line: usize, code: u64 },
    /// Nothing was done.
    Not,
}

/// How far the statements of a suite lead that are run at once.
#[derive(Drop)]
pub enum Ahead {
    /// To their end.
    Ended,
    /// To the one at a place.
    At(usize),
    /// Into one of which a part is left. Behind it the one at the place is next.
    Above { next: usize, control: Control },
    /// To a fault: the line, and the code.
    Faulty { line: usize, code: u64 },
}
