//! Each alternative of the grammar once, by hand from the rules of C90. Other tokens that are no module are rows
//! of the command.

use crate::shown::module;
use c_lex::scan;
use c_parse::{ParseFault, parse};
use std::alloc::{AllocError, Global};
use std::process::Abort;
use std::test::Fail;

/// The tree of a text, or its fault with the line.
fn shown(alloc: Global, text: &[u8]) -> Result<String, AllocError> {
    let mut out = String::new(alloc);
    if text.len() > 2000 {
        return Ok(out);
    }
    let Ok(tokens) = scan(alloc, text) else {
        write!(out, "no tokens")?;
        return Ok(out);
    };
    match parse(alloc, tokens.as_slice()) {
        Ok(m) => module(&mut out, 16, &m)?,
        Err(ParseFault::At { line, kind }) => write!(out, "{kind:?} {line}")?,
        Err(ParseFault::Memory) => write!(out, "Memory")?,
    }
    Ok(out)
}

fn expect(rt: &impl Abort, alloc: Global, rows: &[(&[u8], &str)]) -> Result<(), AllocError> {
    for (text, wanted) in rows {
        let got = shown(alloc, *text)?;
        assert_eq!(rt; got.as_str(), *wanted);
    }
    Ok(())
}

#[test]
fn items(rt: HostRuntime) -> Result<(), Fail> {
    let rows: [(&[u8], &str); 8] = [
        (b"", ""),
        (
            b"#include <stdio.h>\n#include <stdlib.h>\n",
            "(include Stdio)(include Stdlib)",
        ),
        (b"int;enum t;", "(declare Int )(declare enum t )"),
        (
            b"enum{a,b=1};enum t{c}x;",
            "(declare enum {a;b=1:Int;} )(declare enum t{c;}  x)",
        ),
        (
            b"extern static auto register const void char short int long signed unsigned x;",
            "(declare Extern Static Auto Register Const Void Char Short Int Long Signed Unsigned  x)",
        ),
        (
            b"int a,b=1,c[],d[2]={1,2,},e[]={3,4},f(),g(int,char x);",
            "(declare Int  a b=1:Int c[-] d[2:Int]={ 1:Int 2:Int} e[-]={ 3:Int 4:Int} f() g(Int ;Char x;))",
        ),
        (
            b"int f(void){}long g(){int x;enum{a};x;}",
            "(function Int f(Void ;){})(function Long g(){(declare Int  x)(declare enum {a;} )x;})",
        ),
        (b"int f()=1;", "(declare Int  f()=1:Int)"),
    ];
    expect(&rt, rt.alloc(), rows.as_slice())?;
    Ok(())
}

#[test]
fn statements(rt: HostRuntime) -> Result<(), Fail> {
    let rows: [(&[u8], &str); 3] = [
        (
            b"void f(){;{}x;if(a)b;if(a)b;else c;switch(a)b;while(a)b;do a;while(b);}",
            "(function Void f(){;{}x;(if a)b;(if-else a)b;c;(switch a)b;(while a)b;(do b)a;})",
        ),
        (
            b"void f(){for(;;)a;for(a;b;c)d;case 1:a;default:b;break;continue;return;return a;}",
            "(function Void f(){(for -;-;-)a;(for a;b;c)d;(case 1:Int)a;(default)b;(break)(continue)(return -)(return a)})",
        ),
        (
            b"void f(){if(a)if(b)c;else d;if(a){if(b)c;}else d;}",
            "(function Void f(){(if a)(if-else b)c;d;(if-else a){(if b)c;}d;})",
        ),
    ];
    expect(&rt, rt.alloc(), rows.as_slice())?;
    Ok(())
}

#[test]
fn expressions(rt: HostRuntime) -> Result<(), Fail> {
    let rows: [(&[u8], &str); 8] = [
        (
            b"int x=a-b-c*d;",
            "(declare Int  x=(Subtract (Subtract a b) (Multiply c d)))",
        ),
        (
            b"int x=a||b&&c|d^e&f==g<h<<i+j*-k;",
            "(declare Int  x=(LogicalOr a (LogicalAnd b (Or c (Xor d (And e (Equal f (Less g (ShiftLeft h (Add i (Multiply j (Minus k))))))))))))",
        ),
        (
            b"int x=a!=b>c;int y=a<=b>=c>>d;int z=a/b%c;",
            "(declare Int  x=(NotEqual a (Greater b c)))(declare Int  y=(GreaterEqual (LessEqual a b) (ShiftRight c d)))(declare Int  z=(Remainder (Divide a b) c))",
        ),
        (
            b"int x=a=b?c,d:e?f:g;",
            "(declare Int  x=(= a (? b (, c d) (? e f g))))",
        ),
        (
            b"int x=a+=b-=c*=d/=e%=f;int y=a&=b|=c^=d<<=e>>=f;",
            "(declare Int  x=(Add= a (Subtract= b (Multiply= c (Divide= d (Remainder= e f))))))(declare Int  y=(And= a (Or= b (Xor= c (ShiftLeft= d (ShiftRight= e f))))))",
        ),
        (
            b"int x=++a++;int y=--a--;int z=+-~!(a);",
            "(declare Int  x=(before Increment (after Increment a)))(declare Int  y=(before Decrement (after Decrement a)))(declare Int  z=(Plus (Minus (Complement (Not (paren a))))))",
        ),
        (
            b"int x=(int)(a)++;int y=(enum{p=1})-b;",
            "(declare Int  x=(cast Int (after Increment (paren a))))(declare Int  y=(cast enum {p=1:Int;} (Minus b)))",
        ),
        (
            b"int x=a[b,c]++;int y=f()+g(a,(b,c));",
            "(declare Int  x=(after Increment a[(, b c)]))(declare Int  y=(Add (call f) (call g a (paren (, b c)))))",
        ),
    ];
    expect(&rt, rt.alloc(), rows.as_slice())?;
    Ok(())
}

/// `int x=`, pairs of parentheses, one to a line, round 1, and `;`.
fn nested(alloc: Global, pairs: usize) -> Result<Vec<u8>, AllocError> {
    let mut text = Vec::new(alloc);
    text.extend_from_slice(b"int x=")?;
    for _ in 0..pairs {
        text.extend_from_slice(b"\n(")?;
    }
    text.push(b'1')?;
    for _ in 0..pairs {
        text.push(b')')?;
    }
    text.push(b';')?;
    Ok(text)
}

#[test]
fn heights(rt: HostRuntime) -> Result<(), Fail> {
    let alloc = rt.alloc();
    let high = nested(alloc, 255)?;
    let too_high = nested(alloc, 257)?;
    let got = shown(alloc, high.as_slice())?;
    assert!(rt; got.as_str().starts_with("(declare Int  x=(paren (paren "));
    let got = shown(alloc, too_high.as_slice())?;
    assert_eq!(rt; got.as_str(), "Deep 257");
    Ok(())
}
