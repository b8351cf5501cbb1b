//! The tree of a kernel: its declarations and its statements.

ghost use Rattle.std.specs.Prelude.{◌≡◌};

use pei_io::Text;

/// An operator on two words.
#[derive(Clone, Copy, PartialEq, Eq, Debug)]
pub enum Operator {
    Add,
    Sub,
    Mul,
    And,
    Or,
    Xor,
}

/// Numbers, in order.
#[derive(Drop)]
pub struct Words {
    pub(crate) items: Vec<u64>,
}

/// A declaration.
#[derive(Drop)]
pub enum Decl {
    Table { name: Text, size: u64, words: Words },
    Array { name: Text, size: u64 },
}

/// Declarations, in order.
#[derive(Drop)]
pub struct Decls {
    pub(crate) items: Vec<Decl>,
}

/// An expression. The right side of a `Binary` is a term, and `Group` is a term in parentheses.
#[derive(Drop)]
pub enum Expr {
    Num {
        value: u64,
    },
    Name {
        name: Text,
    },
    Item {
        name: Text,
        index: Box<Expr>,
    },
    Group {
        inner: Box<Expr>,
    },
    Binary {
        op: Operator,
        left: Box<Expr>,
        right: Box<Expr>,
    },
}

/// A statement.
#[cycle(tree)]
#[derive(Drop)]
pub enum Stmt {
    Assign {
        name: Text,
        value: Expr,
    },
    Store {
        name: Text,
        index: Expr,
        value: Expr,
    },
    Print {
        value: Expr,
    },
    Inc {
        name: Text,
        index: Expr,
    },
    Min {
        name: Text,
        index: Expr,
        value: Expr,
    },
    Probe {
        first: Text,
        second: Text,
        name: Text,
        index: Expr,
        key: Expr,
    },
    Hist {
        first: Text,
        second: Text,
        name: Text,
        index: Expr,
        shift: u64,
    },
    Dot {
        first: Text,
        name: Text,
        index: Expr,
        a: Text,
        b: Text,
        c: Text,
        d: Text,
    },
    Repeat {
        name: Text,
        turns: u64,
        body: Stmts,
    },
}

/// Statements, in order.
#[cycle(tree)]
#[derive(Drop)]
pub struct Stmts {
    pub(crate) items: Vec<Stmt>,
}

/// A kernel: its declarations and its statements.
#[derive(Drop)]
pub struct KernelTree {
    pub decls: Decls,
    pub stmts: Stmts,
}

impl Words {
    /// The numbers.
    pub fn as_slice(&self) -> &[u64]
        ensures { result.now ≡ self.now.items.items }
    {
        self.items.as_slice()
    }
}

impl Decls {
    /// The declarations.
    pub fn as_slice(&self) -> &[Decl]
        ensures { result.now ≡ self.now.items.items }
    {
        self.items.as_slice()
    }
}

impl Stmts {
    /// The statements.
    pub fn as_slice(&self) -> &[Stmt]
        ensures { result.now ≡ self.now.items.items }
    {
        self.items.as_slice()
    }
}
