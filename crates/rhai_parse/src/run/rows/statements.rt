//! Worked statements: definitions, targets, arms, loops and modules.

use super::{refuses, shows};
use std::test::Fail;

const NOTHING: &str = "\
accepted
functions 0
";

// The empty script has no statements and no functions.
#[test]
fn the_empty_script(rt: HostRuntime) -> Result<(), Fail> {
    let list = "1:1 eof";
    shows(&rt, "script", list, (0, NOTHING))?;
    Ok(())
}

const INNER_VALUE: &str = "\
accepted
Var 1:1 x - - -
  Int 1:9 1
Var 1:12 y - - -
  Int 1:20 2
Block 1:23 1:38
  Var 1:25 x - - -
    Variable 1:33 2 x -
  Expr
    Variable 1:36 1 x -
functions 0
";

// The value of a definition does not see its slot.
#[test]
fn a_value_is_before_its_slot(rt: HostRuntime) -> Result<(), Fail> {
    // `let x = 1; let y = 2; { let x = x; x }`
    let list =
        "1:1 sym let  1:5 id x  1:7 sym =  1:9 int 1  1:10 sym ;  1:12 sym let  1:16 id y  1:18 sym =  \
         1:20 int 2  1:21 sym ;  1:23 sym {  1:25 sym let  1:29 id x  1:31 sym =  1:33 id x  1:34 sym ;  \
         1:36 id x  1:38 sym }  1:39 eof";
    shows(&rt, "script", list, (0, INNER_VALUE))?;
    Ok(())
}

const REUSED_SLOT: &str = "\
accepted
Var 1:1 x - - -
  Int 1:9 1
Var 1:12 x 1 - -
  Int 1:20 2
functions 0
";

const EXPORTED_SLOT: &str = "\
accepted
Var 1:1 x - - -
  Int 1:9 1
Var 1:12 y - - -
  Int 1:20 2
Var 1:30 x 2 - EXPORTED
  Int 1:38 3
Var 1:41 x - - -
  Int 1:49 4
functions 0
";

// A definition reuses the latest slot of its name in the block, unless that is exported.
#[test]
fn slots_that_are_reused(rt: HostRuntime) -> Result<(), Fail> {
    // `let x = 1; let x = 2;`
    let list =
        "1:1 sym let  1:5 id x  1:7 sym =  1:9 int 1  1:10 sym ;  1:12 sym let  1:16 id x  1:18 sym =  \
         1:20 int 2  1:21 sym ;  1:22 eof";
    shows(&rt, "script", list, (0, REUSED_SLOT))?;
    // `let x = 1; let y = 2; export let x = 3; let x = 4;`
    let list =
        "1:1 sym let  1:5 id x  1:7 sym =  1:9 int 1  1:10 sym ;  1:12 sym let  1:16 id y  1:18 sym =  \
         1:20 int 2  1:21 sym ;  1:23 sym export  1:30 sym let  1:34 id x  1:36 sym =  1:38 int 3  \
         1:39 sym ;  1:41 sym let  1:45 id x  1:47 sym =  1:49 int 4  1:50 sym ;  1:51 eof";
    shows(&rt, "script", list, (0, EXPORTED_SLOT))?;
    Ok(())
}

// A constant, a value and a method are no targets.
#[test]
fn refused_targets(rt: HostRuntime) -> Result<(), Fail> {
    // `const x = 1; x = 2;`
    let list =
        "1:1 sym const  1:7 id x  1:9 sym =  1:11 int 1  1:12 sym ;  1:14 id x  1:16 sym =  1:18 int 2  \
         1:19 sym ;  1:20 eof";
    refuses(&rt, "script", list, "E30 1:14 AssignmentToConstant x")?;
    // `1 = 2`
    let list = "1:1 int 1  1:3 sym =  1:5 int 2  1:6 eof";
    refuses(&rt, "script", list, "E30 1:1 AssignmentToConstant \\e")?;
    // `x[1].f() = 2`
    let list =
        "1:1 id x  1:2 sym [  1:3 int 1  1:4 sym ]  1:5 sym .  1:6 id f  1:7 sym ()  1:10 sym =  \
         1:12 int 2  1:13 eof";
    refuses(&rt, "script", list, "E31 1:6 AssignmentToInvalidLHS \\e")?;
    Ok(())
}

const ARM: &str = "\
accepted
Var 1:1 x - - -
  Int 1:9 1
Switch 1:12 -
  Int 1:19 1
  Bool none true
  Stmt 1:28
    Block 1:28 none
      Var 1:28 y - - -
        Int 1:36 2
  Case int 1 0
Expr
  Variable 1:40 1 x -
functions 0
";

// The slots of an arm end with it, and no function is in it.
#[test]
fn an_arm_is_a_block(rt: HostRuntime) -> Result<(), Fail> {
    // `let x = 1; switch 1 { 1 => let y = 2 } x`
    let list =
        "1:1 sym let  1:5 id x  1:7 sym =  1:9 int 1  1:10 sym ;  1:12 sym switch  1:19 int 1  1:21 sym {  \
         1:23 int 1  1:25 sym =>  1:28 sym let  1:32 id y  1:34 sym =  1:36 int 2  1:38 sym }  1:40 id x  \
         1:41 eof";
    shows(&rt, "script", list, (0, ARM))?;
    // `switch 1 { 1 => fn f() {} }`
    let list =
        "1:1 sym switch  1:8 int 1  1:10 sym {  1:12 int 1  1:14 sym =>  1:17 sym fn  1:20 id f  \
         1:21 sym ()  1:24 sym {  1:25 sym }  1:27 sym }  1:28 eof";
    refuses(&rt, "script", list, "E23 1:17 WrongFnDefinition")?;
    Ok(())
}

// A `|` in a case, an arm after the default arm, an integer after a range, and a missing `}`.
#[test]
fn refused_arms(rt: HostRuntime) -> Result<(), Fail> {
    // `switch 1 { (1 | 2) => 3 }`
    let list =
        "1:1 sym switch  1:8 int 1  1:10 sym {  1:12 sym (  1:13 int 1  1:15 sym |  1:17 int 2  \
         1:18 sym )  1:20 sym =>  1:23 int 3  1:25 sym }  1:26 eof";
    refuses(&rt, "script", list, "E8 1:15 ExprExpected literal")?;
    // `switch 1 { _ => 2, 3 => 4 }`
    let list =
        "1:1 sym switch  1:8 int 1  1:10 sym {  1:12 sym _  1:14 sym =>  1:17 int 2  1:18 sym ,  \
         1:20 int 3  1:22 sym =>  1:25 int 4  1:27 sym }  1:28 eof";
    refuses(&rt, "script", list, "E20 1:12 WrongSwitchDefaultCase")?;
    // `switch x { 0..5 => 1, 3 => 2 }`
    let list =
        "1:1 sym switch  1:8 id x  1:10 sym {  1:12 int 0  1:13 sym ..  1:15 int 5  1:17 sym =>  \
         1:20 int 1  1:21 sym ,  1:23 int 3  1:25 sym =>  1:28 int 2  1:30 sym }  1:31 eof";
    refuses(&rt, "script", list, "E22 1:23 WrongSwitchIntegerCase")?;
    // `switch 1 { 1 => 2`
    let list =
        "1:1 sym switch  1:8 int 1  1:10 sym {  1:12 int 1  1:14 sym =>  1:17 int 2  1:18 eof";
    refuses(&rt, "script", list, "E7 1:18 MissingToken }")?;
    Ok(())
}

const FOR: &str = "\
accepted
For 1:1 a i
  FnCall 1:16 .. - 2 -
    Int 1:15 0
    Int 1:18 3
  Block 1:20 1:28
    Expr
      FnCall 1:24 + - 2 -
        Variable 1:22 1 a -
        Variable 1:26 2 i -
functions 0
";

// The loop variable is above the counter.
#[test]
fn variables_of_a_for(rt: HostRuntime) -> Result<(), Fail> {
    // `for (a, i) in 0..3 { a + i }`
    let list =
        "1:1 sym for  1:5 sym (  1:6 id a  1:7 sym ,  1:9 id i  1:10 sym )  1:12 sym in  1:15 int 0  \
         1:16 sym ..  1:18 int 3  1:20 sym {  1:22 id a  1:24 sym +  1:26 id i  1:28 sym }  1:29 eof";
    shows(&rt, "script", list, (0, FOR))?;
    Ok(())
}

const CALL_OF_A_MODULE: &str = "\
accepted
Import 1:1 m
  Str 1:8 a
Import 1:18 m
  Str 1:25 b
Expr
  FnCall 1:38 f 0 0 -
functions 0
";

const VARIABLE_OF_A_MODULE: &str = "\
accepted
Import 1:1 m
  Str 1:8 a
Import 1:18 m
  Str 1:25 b
Expr
  Variable 1:38 - f m 1:35 1
functions 0
";

// A path refers to the latest import of its name, and a key to one function alone.
#[test]
fn imports_and_functions_of_one_name(rt: HostRuntime) -> Result<(), Fail> {
    // `import "a" as m; import "b" as m; m::f()`
    let list =
        "1:1 sym import  1:8 str a  1:12 sym as  1:15 id m  1:16 sym ;  1:18 sym import  1:25 str b  \
         1:29 sym as  1:32 id m  1:33 sym ;  1:35 id m  1:36 sym ::  1:38 id f  1:39 sym ()  1:41 eof";
    shows(&rt, "script", list, (0, CALL_OF_A_MODULE))?;
    // `import "a" as m; import "b" as m; m::f`
    let list =
        "1:1 sym import  1:8 str a  1:12 sym as  1:15 id m  1:16 sym ;  1:18 sym import  1:25 str b  \
         1:29 sym as  1:32 id m  1:33 sym ;  1:35 id m  1:36 sym ::  1:38 id f  1:39 eof";
    shows(&rt, "script", list, (0, VARIABLE_OF_A_MODULE))?;
    // `fn f() {} fn f() {}`
    let list =
        "1:1 sym fn  1:4 id f  1:5 sym ()  1:8 sym {  1:9 sym }  1:11 sym fn  1:14 id f  1:15 sym ()  \
         1:18 sym {  1:19 sym }  1:20 eof";
    refuses(&rt, "script", list, "E28 1:11 FnDuplicatedDefinition f 0")?;
    Ok(())
}

// A `break` outside of a loop, a guard that is no boolean, and one with an `=` after it.
#[test]
fn a_jump_and_guards(rt: HostRuntime) -> Result<(), Fail> {
    // `break;`
    let list = "1:1 sym break  1:6 sym ;  1:7 eof";
    refuses(&rt, "script", list, "E32 1:1 LoopBreak")?;
    // `if 1 {}`
    let list = "1:1 sym if  1:4 int 1  1:6 sym {  1:7 sym }  1:8 eof";
    refuses(
        &rt,
        "script",
        list,
        "E9 1:4 MismatchedType a\\sboolean\\sexpression a\\snumber",
    )?;
    // `if a = 1 {}`
    let list = "1:1 sym if  1:4 id a  1:6 sym =  1:8 int 1  1:10 sym {  1:11 sym }  1:12 eof";
    refuses(&rt, "script", list, "E5 1:6 BadInput improper =")?;
    Ok(())
}
