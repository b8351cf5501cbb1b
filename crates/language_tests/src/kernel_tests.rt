//! The parser on texts: each kind of fault at its first place, with others behind it, and texts that have none.

ghost use Rattle.std.specs.Prelude.{◌<◌, length};

use kernel_text::{Expr, KernelFault, KernelKind, Operator, Stmt, parse};
use std::alloc::{AllocError, Global};
use std::test::Fail;

/// Texts, each with the fault that it must have.
const FAULTY: [(&[u8], u32, u32, KernelKind); 39] = [
    (b"print 1 ! 2; @", 1, 9, KernelKind::BadChar),
    (
        b"print 12ab + 18446744073709551616;",
        1,
        9,
        KernelKind::BadChar,
    ),
    (b"print 1_0;", 1, 8, KernelKind::BadChar),
    (b"print ;\n $", 2, 2, KernelKind::BadChar),
    (
        b"print 18446744073709551616; print !;",
        1,
        7,
        KernelKind::NumberTooLarge,
    ),
    (
        b"print 18446744073709551616x;",
        1,
        7,
        KernelKind::NumberTooLarge,
    ),
    (b"print ;", 1, 7, KernelKind::Syntax),
    (b"print 1", 1, 8, KernelKind::Syntax),
    (b"print 1\n", 2, 1, KernelKind::Syntax),
    (b"print 1 # 2", 1, 12, KernelKind::Syntax),
    (b"print 1;\narray A[8];", 2, 1, KernelKind::Syntax),
    (b"for print < 2 { }", 1, 5, KernelKind::Syntax),
    (b"table T[8] = ; print x;", 1, 14, KernelKind::Syntax),
    (b"for i < 2 { } }", 1, 15, KernelKind::Syntax),
    (
        b"print (((((((((((((((((1))))))))))))))))) + x;",
        1,
        23,
        KernelKind::TooNested,
    ),
    (
        b"array A[8];\ntable A[9] = 1;",
        2,
        7,
        KernelKind::DoubleName,
    ),
    (b"print x + y;", 1, 7, KernelKind::Unknown),
    (b"print A[0];", 1, 7, KernelKind::Unknown),
    (
        b"table T[8] = 1; a = 1; b = dot T[0], a, a, c, T;",
        1,
        44,
        KernelKind::Unknown,
    ),
    (
        b"table T[8] = 1;\ninc T[0]; inc U[0];",
        2,
        5,
        KernelKind::WrongKind,
    ),
    (
        b"array A[8]; a, b = probe A[0], 1;",
        1,
        26,
        KernelKind::WrongKind,
    ),
    (b"inc x[0];", 1, 5, KernelKind::WrongKind),
    (b"a = 1; print a[0];", 1, 14, KernelKind::WrongKind),
    (b"array A[8]; print A;", 1, 19, KernelKind::WrongKind),
    (b"array A[8]; A = 1;", 1, 13, KernelKind::WrongKind),
    (b"array A[8]; A 1;", 1, 13, KernelKind::WrongKind),
    (b"table T[8] = 1; T[0] = 1;", 1, 17, KernelKind::WrongKind),
    (b"for i < 2 { i = x; }", 1, 13, KernelKind::LoopVariable),
    (
        b"for i < 2 { for i < 3 { } }",
        1,
        17,
        KernelKind::LoopVariable,
    ),
    (
        b"a=1;b=1;c=1;d=1;e=1;f=1;g=1;h=1;\ni=x;",
        2,
        1,
        KernelKind::TooManyVariables,
    ),
    (b"array A[9]; array A[8];", 1, 9, KernelKind::BadSize),
    (b"array A[4];", 1, 9, KernelKind::BadSize),
    (b"for i < 0 { }", 1, 9, KernelKind::BadSize),
    (b"for i < 1000001 { }", 1, 9, KernelKind::BadSize),
    (
        b"table T[8] = 1; a, b = hist T[0], 25;",
        1,
        35,
        KernelKind::BadSize,
    ),
    (
        b"table T[8] = 1,2,3,4,5,6,7,8,9,10;",
        1,
        30,
        KernelKind::TooManyValues,
    ),
    (
        b"array A[4096]; array B[4096]; array C[4096]; array D[4096]; array E[4096]; array F[4096]; array G[4096]; array H[4096];\narray I[8]; array J[8];",
        2,
        9,
        KernelKind::TooManyWords,
    ),
    (
        b"print 1 + (1 + (1 + (1 + 1))) + x;",
        1,
        26,
        KernelKind::TooDeep,
    ),
    (
        b"array A[8]; print 1 + A[1 + A[1 + A[1 + 1]]];",
        1,
        41,
        KernelKind::TooDeep,
    ),
];

/// Texts without a fault.
const RIGHT: [&[u8]; 13] = [
    b"",
    b"print 18446744073709551615;",
    b"# $ 1a\nprint 1; # 2x",
    b"a = a;",
    b"table T[8] = 1; print T[0];",
    b"for i < 2 { } i = 1;",
    b"array A[4096]; array B[4096]; array C[4096]; array D[4096]; array E[4096]; array F[4096]; array G[4096]; array H[4096];",
    b"print 1 + (1 + (1 + 1));",
    b"print (((1 + 1) + 1) + 1) + 1;",
    b"print ((((((((((((((((1))))))))))))))));",
    b"a=1;b=1;c=1;d=1;e=1;f=1;g=1;h=1;a=h;",
    b"table T[8] = 1; a, b = probe T[a], b; a, b = hist T[0], 24; a = dot T[b], a, b, a, b;",
    b"array A[8]; for i < 1000000 { for j < 1 { inc A[i]; min A[j], i & j; A[0] = A[1] | A[2] ^ 3; } }",
];

fn fault_of(alloc: Global, text: &[u8]) -> Option<KernelFault>
    requires { length text.now < 4294967295 }
{
    match parse(alloc, text) {
        Ok(_) => None,
        Err(fault) => Some(fault),
    }
}

#[test]
fn faulty_texts(rt: HostRuntime) {
    for (text, line, column, kind) in FAULTY {
        assert!(rt; text.len() < 1000);
        let fault = fault_of(rt.alloc(), text);
        assert!(rt; fault == Some(KernelFault { line, column, kind }));
    }
}

#[test]
fn right_texts(rt: HostRuntime) {
    for text in RIGHT {
        assert!(rt; fault_of(rt.alloc(), text).is_none());
    }
}

#[test]
fn bytes_above_127(rt: HostRuntime) {
    let fault = fault_of(rt.alloc(), &[b'#', b' ', 0xC3, 0xA4]);
    assert!(rt;
        fault
            == Some(KernelFault {
                line: 1,
                column: 3,
                kind: KernelKind::BadChar,
            })
    );
}

/// A text of so many equal pieces, with another behind them.
fn repeated(alloc: Global, piece: &[u8], times: u32, last: &[u8]) -> Result<Vec<u8>, AllocError> {
    let mut text = Vec::new(alloc);
    for _ in 0..times {
        text.extend_from_slice(piece)?;
    }
    text.extend_from_slice(last)?;
    Ok(text)
}

#[test]
fn lengths(rt: HostRuntime) -> Result<(), Fail> {
    let most = repeated(rt.alloc(), b"a = 1 + 1;", 1000, b"")?;
    assert!(rt; most.len() == 10_000);
    assert!(rt; fault_of(rt.alloc(), most.as_slice()).is_none());
    let more = repeated(rt.alloc(), b"a = 1 + 1;\n", 1000, b"a = x;")?;
    assert!(rt; more.len() == 11_006);
    let fault = fault_of(rt.alloc(), more.as_slice());
    assert!(rt;
        fault
            == Some(KernelFault {
                line: 1001,
                column: 1,
                kind: KernelKind::TooLong,
            })
    );
    let long = repeated(rt.alloc(), b"1 + ", 1999, b"")?;
    let mut text = repeated(rt.alloc(), b"", 0, b"print ")?;
    text.extend_from_slice(long.as_slice())?;
    text.extend_from_slice(b"1;")?;
    assert!(rt; text.len() == 8_004);
    assert!(rt; fault_of(rt.alloc(), text.as_slice()).is_none());
    Ok(())
}

#[test]
fn trees(rt: HostRuntime) {
    let text = b"array A[8]; a = 1 - 2 * 3; for i < 5 { inc A[i]; }";
    let Ok(tree) = parse(rt.alloc(), text) else {
        assert!(rt; false);
        return;
    };
    assert!(rt; tree.decls.as_slice().len() == 1);
    let stmts = tree.stmts.as_slice();
    assert!(rt; stmts.len() == 2);
    assert!(rt; is_product(&stmts[0], "a"));
    assert!(rt; is_loop(&stmts[1], 5));
}

/// An assignment of a product to this variable.
fn is_product(stmt: &Stmt, variable: &str) -> bool {
    match stmt {
        Stmt::Assign {
            name,
            value: Expr::Binary { op, .. },
        } => name.as_str() == variable && *op == Operator::Mul,
        _ => false,
    }
}

/// A loop of so many turns over one statement.
fn is_loop(stmt: &Stmt, count: u64) -> bool {
    match stmt {
        Stmt::Repeat { turns, body, .. } => *turns == count && body.as_slice().len() == 1,
        _ => false,
    }
}
