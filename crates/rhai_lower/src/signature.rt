//! The signature of a function as text.

ghost use Rattle.std.specs.Prelude.{◌≡◌, ◌++◌, IfOk, OnOk, option_map, string_bytes};
ghost use Rattle.std.specs.Rc.{rc_str_bytes};
ghost use Rattle.rhai_lower.specs.Signatures.{access, method_type, signature};
ghost use Rattle.rhai_lower.specs.View.{function_view};

use crate::ast::ScriptFuncDef;
use std::alloc::{AllocError, Global};
use std::rc::RcStr;

fn access(private: bool) -> &'static str
    ensures { result.now ≡ access private }
{
    if private { "private " } else { "" }
}

// Adds a method's type, with its dot.
fn push_type(text: &mut String, this_type: &Option<RcStr>) -> Result<(), AllocError>
    ensures { OnOk result (string_bytes text.new
        ≡ string_bytes text.old ++ method_type (option_map rc_str_bytes this_type.now)) }
{
    if let Some(this_type) = this_type {
        text.push_str(this_type)?;
        text.push_str(".")?;
    }
    Ok(())
}

impl ScriptFuncDef {
    /// The signature as text: `name(a, b)`, after `private ` for a private function, and for a method after its type
    /// and a dot, as in `private int.add(x)`. Returns `AllocError` if memory runs out.
    pub fn signature(&self, alloc: Global) -> Result<String, AllocError>
        ensures { IfOk result (λ text. string_bytes text ≡ signature (function_view self.now)) }
    {
        let params = self.params.join(alloc, ", ")?;
        let mut text = String::from_str(alloc, access(self.private))?;
        push_type(&mut text, &self.this_type)?;
        text.push_str(&self.name)?;
        text.push_str("(")?;
        text.push_str(&params)?;
        text.push_str(")")?;
        Ok(text)
    }
}
