//! The calls for C. Each reads its arguments, and hands out what the crate's own functions answer.

ghost use Rattle.std.specs.Prelude.{◌≡◌, ◌⊎◌, None, Some};
ghost use Rattle.rhai_c.specs.Answers.{Answers, AnswersFor, HasNone, kind_of};
ghost use Rattle.rhai_c.specs.Changes.{ChangesHeld};
ghost use Rattle.rhai_c.specs.Options.{new_settings};
ghost use Rattle.rhai_c.specs.Statuses.{number_of};
ghost use Rattle.rhai_c.specs.declared.changes.Change.TheVariants as change;
ghost use Rattle.rhai_c.specs.declared.kept.Kept.TheVariants as kept;
ghost use Rattle.rhai_c.specs.declared.scripts.Question.TheVariants as question;
ghost use Rattle.rhai_c.specs.declared.scripts.Told.TheVariants as told;
ghost use Rattle.rhai_c.specs.declared.status.Status.TheVariants as status;

use crate::answer::RhaiAnswer;
use crate::changes::{Change, make_change};
use crate::held::Held;
use crate::kept::Kept;
use crate::scripts::{Kind, Question, Told, reply_on};
use crate::settings::Settings;
use crate::status::Status;
use std::alloc::Global;

// Changes the settings that a host holds.
fn change_held(alloc: Global, engine: &mut Held, what: Change<'_>) -> u32
    ensures { ChangesHeld what.entry engine.old.value engine.new.value result }
{
    let Some(mut kept) = engine.take(alloc) else {
        return Status::BadArgument.number();
    };
    let status = match &mut *kept {
        Kept::Settings(settings) => make_change(alloc, settings, what),
        Kept::Text(_) => Status::BadArgument,
    };
    engine.put(alloc, kept);
    status.number()
}

// Asks what a text is, under the settings that a host holds.
fn ask(
    alloc: Global,
    engine: &mut Held,
    text: &[u8],
    question: Question,
    answer: &mut RhaiAnswer,
) -> u32
    ensures kept { engine.new.value ≡ engine.old.value }
    ensures answered { Answers question engine.old.value text.now answer.new result }
{
    answer.clear(alloc, 0);
    let Some(kept) = engine.take(alloc) else {
        return Status::BadArgument.number();
    };
    let status = match &*kept {
        Kept::Settings(settings) => {
            let reply = reply_on(alloc, settings, text, question);
            answer.give(alloc, reply)
        }
        Kept::Text(_) => Status::BadArgument,
    };
    engine.put(alloc, kept);
    status.number()
}

// Asks the same of a script or an expression, by the number of its kind.
fn ask_script(
    alloc: Global,
    engine: &mut Held,
    text: &[u8],
    kind: u32,
    told: Told,
    answer: &mut RhaiAnswer,
) -> u32
    ensures kept { engine.new.value ≡ engine.old.value }
    ensures answered { AnswersFor (kind_of kind) told engine.old.value text.now answer.new result }
{
    let Some(kind) = Kind::of_number(kind) else {
        answer.clear(alloc, 0);
        return Status::BadArgument.number();
    };
    ask(alloc, engine, text, Question::Script(kind, told), answer)
}

/// Makes an engine, with the settings of a new one. What `engine` held is freed.
#[unsafe(no_mangle)]
pub extern "C" fn rhai_engine_new_at(alloc: Global, engine: &mut Held) -> u32
    ensures { ((result ≡ number_of status.Ok) × (engine.new.value ≡ Some (kept.Settings new_settings)))
        ⊎ ((result ≡ number_of status.NoMemory) × (engine.new.value ≡ None)) }
{
    drop(engine.take(alloc));
    let settings = Settings::new(alloc);
    let Ok(kept) = Box::new(alloc, Kept::Settings(settings)) else {
        return Status::NoMemory.number();
    };
    engine.put(alloc, kept);
    Status::Ok.number()
}

/// Frees an engine, and leaves null.
#[unsafe(no_mangle)]
pub extern "C" fn rhai_engine_free_at(alloc: Global, engine: &mut Held)
    ensures { engine.new.value ≡ None }
{
    drop(engine.take(alloc));
}

/// Gives an option of an engine a value.
#[unsafe(no_mangle)]
pub extern "C" fn rhai_engine_set_at(
    alloc: Global,
    engine: &mut Held,
    option: u32,
    value: usize,
) -> u32
    ensures { ChangesHeld (change.Set option value) engine.old.value engine.new.value result }
{
    change_held(alloc, engine, Change::Set(option, value))
}

/// Lets scripts know a constant of this name.
#[unsafe(no_mangle)]
pub extern "C" fn rhai_engine_add_constant_at(alloc: Global, engine: &mut Held, name: &[u8]) -> u32
    ensures { ChangesHeld (change.Constant name.entry) engine.old.value engine.new.value result }
{
    change_held(alloc, engine, Change::Constant(name))
}

/// Lets scripts find a module of this name.
#[unsafe(no_mangle)]
pub extern "C" fn rhai_engine_add_module_at(alloc: Global, engine: &mut Held, name: &[u8]) -> u32
    ensures { ChangesHeld (change.Module name.entry) engine.old.value engine.new.value result }
{
    change_held(alloc, engine, Change::Module(name))
}

/// The tree of a text, or why it is refused. A text that `answer` had is freed.
#[unsafe(no_mangle)]
pub extern "C" fn rhai_parse_at(
    alloc: Global,
    engine: &mut Held,
    text: &[u8],
    kind: u32,
    answer: &mut RhaiAnswer,
) -> u32
    ensures kept { engine.new.value ≡ engine.old.value }
    ensures answered { AnswersFor (kind_of kind) told.Tree engine.old.value text.now answer.new result }
{
    ask_script(alloc, engine, text, kind, Told::Tree, answer)
}

/// Which names the functions of a text need, or why it is refused. A text that `answer` had is freed.
#[unsafe(no_mangle)]
pub extern "C" fn rhai_names_at(
    alloc: Global,
    engine: &mut Held,
    text: &[u8],
    kind: u32,
    answer: &mut RhaiAnswer,
) -> u32
    ensures kept { engine.new.value ≡ engine.old.value }
    ensures answered { AnswersFor (kind_of kind) told.Names engine.old.value text.now answer.new result }
{
    ask_script(alloc, engine, text, kind, Told::Names, answer)
}

/// The tokens of a text. It is never refused, since an error of it is a token. A text that `answer` had is freed.
#[unsafe(no_mangle)]
pub extern "C" fn rhai_tokens_at(
    alloc: Global,
    engine: &mut Held,
    text: &[u8],
    answer: &mut RhaiAnswer,
) -> u32
    ensures kept { engine.new.value ≡ engine.old.value }
    ensures answered { Answers question.Tokens engine.old.value text.now answer.new result }
{
    ask(alloc, engine, text, Question::Tokens, answer)
}

/// Frees the text of an answer, and leaves none.
#[unsafe(no_mangle)]
pub extern "C" fn rhai_free_at(alloc: Global, answer: &mut RhaiAnswer)
    ensures { HasNone 0 answer.new }
{
    answer.clear(alloc, 0);
}

/// The version of Rhai whose parser this is, 1.27.0, as 1 * 10000 + 27 * 100 + 0.
#[unsafe(no_mangle)]
pub extern "C" fn rhai_version() -> u32
    ensures { result ≡ 12700 }
{
    12700
}
