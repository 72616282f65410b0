//! Worked functions and closures, and strict variables.

use super::{refuses, shows};
use std::test::Fail;

const TWO_CAPTURES: &str = "\
accepted
Expr
  Stmt 1:1
    Block 1:1 none
      Share 1:1 x 1:4 - y 1:9 -
      Expr
        FnCall 1:1 curry - 3 -
          Pointer 1:1 anon$0000000000000000 2
          Variable 1:4 - x -
          Variable 1:9 - y -
functions 1
fn - anon$0000000000000000 x y
  Block 1:6 none
    Expr
      FnCall 1:6 contains 2 2 -
        Variable 1:9 - y -
        Variable 1:4 - x -
";

const CAPTURE_AND_PARAMETER: &str = "\
accepted
Expr
  Stmt 1:1
    Block 1:1 none
      Share 1:1 y 1:9 -
      Expr
        FnCall 1:1 curry - 2 -
          Pointer 1:1 anon$0000000000000000 2
          Variable 1:9 - y -
functions 1
fn - anon$0000000000000000 y x
  Block 1:7 none
    Expr
      FnCall 1:7 + - 2 -
        Variable 1:5 1 x -
        Variable 1:9 - y -
";

// Captured names come first, in the order of their uses. Functions that have begun count for the limit.
#[test]
fn captures_of_closures(rt: HostRuntime) -> Result<(), Fail> {
    // `|| x in y`
    let list = "1:1 sym ||  1:4 id x  1:6 sym in  1:9 id y  1:10 eof";
    shows(&rt, "expr", list, (0, TWO_CAPTURES))?;
    // `|x| x + y`
    let list = "1:1 sym |  1:2 id x  1:3 sym |  1:5 id x  1:7 sym +  1:9 id y  1:10 eof";
    shows(&rt, "expr", list, (0, CAPTURE_AND_PARAMETER))?;
    // `|x| |y| y`
    let list = "1:1 sym |  1:2 id x  1:3 sym |  1:5 sym |  1:6 id y  1:7 sym |  1:9 id y  1:10 eof";
    refuses(&rt, "expr functions=1", list, "E35 1:5 TooManyFunctions")?;
    // `return |x| x`
    let list = "1:1 sym return  1:8 sym |  1:9 id x  1:10 sym |  1:12 id x  1:13 eof";
    refuses(&rt, "script functions=0", list, "E35 1:8 TooManyFunctions")?;
    Ok(())
}

const SHARED: &str = "\
accepted
Var 1:1 x - - -
  Int 1:9 1
Expr
  Stmt 1:12
    Block 1:12 none
      Share 1:12 x 1:15 1
      Expr
        FnCall 1:12 curry - 2 -
          Pointer 1:12 anon$0000000000000000 1
          Variable 1:15 1 x -
functions 1
fn - anon$0000000000000000 x
  Block 1:15 none
    Expr
      Variable 1:15 - x -
";

// The variable that a closure captures is shared, and passed first.
#[test]
fn a_closure_shares_a_variable(rt: HostRuntime) -> Result<(), Fail> {
    // `let x = 1; || x`
    let list =
        "1:1 sym let  1:5 id x  1:7 sym =  1:9 int 1  1:10 sym ;  1:12 sym ||  1:15 id x  1:16 eof";
    shows(&rt, "script", list, (0, SHARED))?;
    Ok(())
}

const FOUR_FUNCTIONS: &str = "\
accepted
Expr
  FnCall 1:114 + - 2 -
    FnCall 1:103 + - 2 -
      FnCall 1:89 + - 2 -
        FnCall 1:81 zulu 1 1 -
          Int 1:86 1
        FnCall 1:91 alpha 2 2 -
          Int 1:97 2
          Int 1:100 3
      FnCall 1:105 alpha 1 1 -
        Int 1:111 4
    FnCall 1:116 mike 0 0 -
functions 4
fn - zulu x
  Block 1:12 1:20
    Expr
      FnCall 1:16 + - 2 -
        Variable 1:14 1 x -
        Int 1:18 1
fn - alpha a b
  Block 1:37 1:45
    Expr
      FnCall 1:41 + - 2 -
        Variable 1:39 2 a -
        Variable 1:43 1 b -
fn - alpha a
  Block 1:59 1:63
    Expr
      Variable 1:61 1 a -
fn - mike
  Block 1:75 1:79
    Expr
      Int 1:77 1
";

// Functions come in the order in which they end.
#[test]
fn functions_in_order(rt: HostRuntime) -> Result<(), Fail> {
    // `fn zulu(x) { x + 1 } fn alpha(a, b) { a + b } fn alpha(a) { a } fn mike() { 1 } zulu(1) + alpha(2, 3)
    // + alpha(4) + mike()`
    let list =
        "1:1 sym fn  1:4 id zulu  1:8 sym (  1:9 id x  1:10 sym )  1:12 sym {  1:14 id x  1:16 sym +  \
         1:18 int 1  1:20 sym }  1:22 sym fn  1:25 id alpha  1:30 sym (  1:31 id a  1:32 sym ,  1:34 id b  \
         1:35 sym )  1:37 sym {  1:39 id a  1:41 sym +  1:43 id b  1:45 sym }  1:47 sym fn  1:50 id alpha  \
         1:55 sym (  1:56 id a  1:57 sym )  1:59 sym {  1:61 id a  1:63 sym }  1:65 sym fn  1:68 id mike  \
         1:72 sym ()  1:75 sym {  1:77 int 1  1:79 sym }  1:81 id zulu  1:85 sym (  1:86 int 1  \
         1:87 sym )  1:89 sym +  1:91 id alpha  1:96 sym (  1:97 int 2  1:98 sym ,  1:100 int 3  \
         1:101 sym )  1:103 sym +  1:105 id alpha  1:110 sym (  1:111 int 4  1:112 sym )  1:114 sym +  \
         1:116 id mike  1:120 sym ()  1:122 eof";
    shows(&rt, "script", list, (0, FOUR_FUNCTIONS))?;
    Ok(())
}

// A strict variable has to be known, also the one that a closure captures.
#[test]
fn strict_variables(rt: HostRuntime) -> Result<(), Fail> {
    // `x`
    let list = "1:1 id x  1:2 eof";
    refuses(&rt, "expr options=255", list, "E18 1:1 VariableUndefined x")?;
    // `|| x`
    let list = "1:1 sym ||  1:4 id x  1:5 eof";
    refuses(&rt, "expr options=255", list, "E18 1:4 VariableUndefined x")?;
    Ok(())
}
