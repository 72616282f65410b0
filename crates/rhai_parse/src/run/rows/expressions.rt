//! Worked expressions: operators, chains, literals and limits.

use super::{refuses, shows};
use std::test::Fail;

const SUM_AND_PRODUCT: &str = "\
accepted
Expr
  FnCall 1:3 + - 2 -
    Int 1:1 1
    FnCall 1:7 * - 2 -
      Int 1:5 2
      Int 1:9 3
functions 0
";

const SUM: &str = "\
accepted
Expr
  FnCall 1:3 + - 2 -
    Int 1:1 1
    Int 1:5 2
functions 0
";

// `*` binds more tightly than `+`, and each operator of a run needs one more level.
#[test]
fn levels_of_a_run(rt: HostRuntime) -> Result<(), Fail> {
    // `1 + 2 * 3`
    let list = "1:1 int 1  1:3 sym +  1:5 int 2  1:7 sym *  1:9 int 3  1:10 eof";
    shows(&rt, "expr", list, (0, SUM_AND_PRODUCT))?;
    shows(&rt, "expr expr_depth=3", list, (0, SUM_AND_PRODUCT))?;
    refuses(&rt, "expr expr_depth=2", list, "E34 1:5 ExprTooDeep")?;
    // `1 + 2`
    let list = "1:1 int 1  1:3 sym +  1:5 int 2  1:6 eof";
    refuses(&rt, "expr expr_depth=1", list, "E34 1:1 ExprTooDeep")?;
    shows(&rt, "expr expr_depth=2", list, (0, SUM))?;
    // `1 + 2 + 3`
    let list = "1:1 int 1  1:3 sym +  1:5 int 2  1:7 sym +  1:9 int 3  1:10 eof";
    refuses(&rt, "expr expr_depth=2", list, "E34 1:3 ExprTooDeep")?;
    Ok(())
}

const RANGE_TO: &str = "\
accepted
Expr
  FnCall 1:1 .. - 2 -
    Int 1:1 0
    Int 1:3 5
functions 0
";

const MINUS_RANGE_TO: &str = "\
accepted
Expr
  FnCall 1:2 .. - 2 -
    Int 1:1 0
    Int 1:4 5
functions 0
";

const RANGE_FROM: &str = "\
accepted
Expr
  Array 1:1
    FnCall 1:3 .. - 2 -
      Int 1:2 5
      Unit 1:5
functions 0
";

// A range may lack its left end, and its right end before a closing token.
#[test]
fn omitted_ends_of_ranges(rt: HostRuntime) -> Result<(), Fail> {
    // `..5`
    let list = "1:1 sym ..  1:3 int 5  1:4 eof";
    shows(&rt, "expr", list, (0, RANGE_TO))?;
    // `-..5`
    let list = "1:1 sym u-  1:2 sym ..  1:4 int 5  1:5 eof";
    shows(&rt, "expr", list, (0, MINUS_RANGE_TO))?;
    // `[5..]`
    let list = "1:1 sym [  1:2 int 5  1:3 sym ..  1:5 sym ]  1:6 eof";
    shows(&rt, "expr", list, (0, RANGE_FROM))?;
    // `5..`
    let list = "1:1 int 5  1:2 sym ..  1:4 eof";
    refuses(&rt, "expr", list, "E1 1:4 UnexpectedEOF")?;
    Ok(())
}

const CONDITIONS: &str = "\
accepted
Expr
  And 1:3
    Variable 1:1 - a -
    Variable 1:6 - b -
    Variable 1:11 - c -
functions 0
";

// Operands of `&&` are in one list, at the first operator.
#[test]
fn a_list_of_conditions(rt: HostRuntime) -> Result<(), Fail> {
    // `a && b && c`
    let list = "1:1 id a  1:3 sym &&  1:6 id b  1:8 sym &&  1:11 id c  1:12 eof";
    shows(&rt, "expr", list, (0, CONDITIONS))?;
    Ok(())
}

const GROUPED_CHAIN: &str = "\
accepted
Expr
  Index 1:4 -
    Variable 1:3 - x -
    Dot 1:7 -
      Variable 1:5 - y -
      Index 1:16 -
        Property 1:8 prop_a
        Dot 1:19 -
          Variable 1:17 - z -
          Property 1:20 prop_b
functions 0
";

const CHAIN: &str = "\
accepted
Expr
  Index 1:2 -
    Variable 1:1 - x -
    Dot 1:5 -
      Variable 1:3 - y -
      Index 1:12 -
        Property 1:6 prop_a
        Dot 1:15 -
          Variable 1:13 - z -
          Property 1:16 prop_b
functions 0
";

// A chain in parentheses that goes on has the tree that it has without them.
#[test]
fn a_chain_in_parentheses(rt: HostRuntime) -> Result<(), Fail> {
    // `( x[y].prop_a )[z].prop_b`
    let list =
        "1:1 sym (  1:3 id x  1:4 sym [  1:5 id y  1:6 sym ]  1:7 sym .  1:8 id prop_a  1:15 sym )  \
         1:16 sym [  1:17 id z  1:18 sym ]  1:19 sym .  1:20 id prop_b  1:26 eof";
    shows(&rt, "expr", list, (0, GROUPED_CHAIN))?;
    // `x[y].prop_a[z].prop_b`
    let list =
        "1:1 id x  1:2 sym [  1:3 id y  1:4 sym ]  1:5 sym .  1:6 id prop_a  1:12 sym [  1:13 id z  \
         1:14 sym ]  1:15 sym .  1:16 id prop_b  1:22 eof";
    shows(&rt, "expr", list, (0, CHAIN))?;
    Ok(())
}

const BRACKETS: &str = "\
accepted
Expr
  Index 1:2 NEGATED
    Variable 1:1 - a -
    Index 1:6 BREAK
      Variable 1:4 - b -
      Variable 1:7 - c -
functions 0
";

const BRACKET_AND_DOT: &str = "\
accepted
Expr
  Index 1:2 NEGATED
    Variable 1:1 - a -
    Dot 1:6 -
      Variable 1:4 - b -
      Property 1:7 c
functions 0
";

// Each link has its own mark. A bracket that ends its chain is marked too.
#[test]
fn marks_of_links(rt: HostRuntime) -> Result<(), Fail> {
    // `a?[b][c]`
    let list = "1:1 id a  1:2 sym ?[  1:4 id b  1:5 sym ]  1:6 sym [  1:7 id c  1:8 sym ]  1:9 eof";
    shows(&rt, "expr", list, (0, BRACKETS))?;
    // `a?[b].c`
    let list = "1:1 id a  1:2 sym ?[  1:4 id b  1:5 sym ]  1:6 sym .  1:7 id c  1:8 eof";
    shows(&rt, "expr", list, (0, BRACKET_AND_DOT))?;
    Ok(())
}

// No method is called with a `!`.
#[test]
fn a_method_with_a_bang(rt: HostRuntime) -> Result<(), Fail> {
    // `a.f!().b`
    let list = "1:1 id a  1:2 sym .  1:3 id f  1:4 sym !  1:5 sym ()  1:7 sym .  1:8 id b  1:9 eof";
    refuses(&rt, "expr", list, "E11 1:3 MalformedCapture")?;
    Ok(())
}

const ARRAY: &str = "\
accepted
Expr
  Array 1:1
    Int 1:2 1
    Int 1:5 2
functions 0
";

// A limit is tested where an item, or the value of a property, is one too many.
#[test]
fn sizes_of_literals(rt: HostRuntime) -> Result<(), Fail> {
    // `[1, 2]`
    let list = "1:1 sym [  1:2 int 1  1:3 sym ,  1:5 int 2  1:6 sym ]  1:7 eof";
    shows(&rt, "expr array=2", list, (0, ARRAY))?;
    // `[1, 2, 3]`
    let list =
        "1:1 sym [  1:2 int 1  1:3 sym ,  1:5 int 2  1:6 sym ,  1:8 int 3  1:9 sym ]  1:10 eof";
    refuses(
        &rt,
        "expr array=2",
        list,
        "E33 1:8 LiteralTooLarge Size\\sof\\sarray\\sliteral 2",
    )?;
    // `#{a: 1, b: 2}`
    let list =
        "1:1 sym #{  1:3 id a  1:4 sym :  1:6 int 1  1:7 sym ,  1:9 id b  1:10 sym :  1:12 int 2  \
         1:13 sym }  1:14 eof";
    refuses(
        &rt,
        "expr map=1",
        list,
        "E33 1:12 LiteralTooLarge Number\\sof\\sproperties\\sin\\sobject\\smap\\sliteral 1",
    )?;
    Ok(())
}

// Each property is written once.
#[test]
fn a_property_that_is_there(rt: HostRuntime) -> Result<(), Fail> {
    // `#{a: 1, a: 2}`
    let list =
        "1:1 sym #{  1:3 id a  1:4 sym :  1:6 int 1  1:7 sym ,  1:9 id a  1:10 sym :  1:12 int 2  \
         1:13 sym }  1:14 eof";
    refuses(&rt, "expr", list, "E15 1:9 DuplicatedProperty a")?;
    Ok(())
}

// The array is full where the next token is an error of the tokenizer: the limit is tested first.
#[test]
fn a_later_cause_that_holds_too(rt: HostRuntime) -> Result<(), Fail> {
    let list = "1:1 sym [  1:2 int 1  1:3 sym ,  1:5 err unterminated  1:6 eof";
    refuses(
        &rt,
        "expr array=1",
        list,
        "E33 1:5 LiteralTooLarge Size\\sof\\sarray\\sliteral 1",
    )?;
    Ok(())
}

const INTERPOLATED: &str = "\
accepted
Expr
  Interpolated 1:1
    Str 1:1 a
    Stmt 1:4
      Block 1:4 1:6
        Expr
          Variable 1:5 - b -
    Str 1:7 c
functions 0
";

// After a block the text goes on with a token that is marked as text, and with no other.
#[test]
fn an_interpolated_string(rt: HostRuntime) -> Result<(), Fail> {
    // `a${b}c`
    let list = "1:1 istr a  1:4 sym {  1:5 id b  1:6 sym }  1:7 tstr c  1:9 eof";
    shows(&rt, "expr", list, (0, INTERPOLATED))?;
    let list = "1:1 istr a  1:4 sym {  1:5 id b  1:6 sym }  1:7 id c  1:9 eof";
    refuses(&rt, "expr", list, "E2 1:7 BadInput unexpected c")?;
    Ok(())
}

const NEGATIVE: &str = "\
accepted
Expr
  Int 1:1 -5
functions 0
";

const MISSING_VALUE: &str = "\
accepted
Var 1:1 x - - -
  Unit none
functions 0
";

// A minus is part of its integer, whether in its token or before it. A missing value has no position.
#[test]
fn a_sign_and_a_missing_value(rt: HostRuntime) -> Result<(), Fail> {
    // `-5`
    let list = "1:1 int -5  1:3 eof";
    shows(&rt, "expr", list, (0, NEGATIVE))?;
    let list = "1:1 sym u-  1:2 int 5  1:3 eof";
    shows(&rt, "expr", list, (0, NEGATIVE))?;
    let list = "1:1 sym -  1:2 int 5  1:3 eof";
    shows(&rt, "expr", list, (0, NEGATIVE))?;
    // `let x;`
    let list = "1:1 sym let  1:5 id x  1:6 sym ;  1:7 eof";
    shows(&rt, "script", list, (0, MISSING_VALUE))?;
    Ok(())
}
