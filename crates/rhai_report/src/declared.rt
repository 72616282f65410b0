//! Names that a text declares, as its tokens tell without a tree.

ghost use Rattle.std.specs.Prelude.{◌≡◌, ◌∷◌, ◌++◌, [], IfOk, List, OnOk, map, option_map, option_to_list};
ghost use Rattle.std.specs.Rc.{rc_str_bytes};
ghost use Rattle.rhai_report.specs.Brackets.{token_of};
ghost use Rattle.rhai_report.specs.Names.{declared_by, declared_in, is_declared, name_in, part_of, place_after};
ghost use Rattle.rhai_report.specs.declared.declared.Part.{Part};

use rhai_lower::{Entry, Token};
use std::alloc::{AllocError, Global};

/// What a token is to a declaration.
#[derive(Clone, Copy, PartialEq, Debug)]
pub enum Part {
    /// `let` or `const`
    Binder,
    /// `as`
    Renamer,
    /// `for`, `catch` or `fn`
    Opener,
    /// `(`
    Paren,
    /// `|`
    Bar,
    /// `,`
    Comma,
    /// `.`
    Period,
    /// A name.
    Name,
    /// A text.
    Text,
    /// Another token with which an operand may end.
    End,
    /// Any other token.
    Other,
}

// What a token is to a declaration.
fn part_of(token: &Token) -> Part
    ensures { result ≡ part_of token.now }
{
    match token {
        Token::Let | Token::Const => Part::Binder,
        Token::As => Part::Renamer,
        Token::For | Token::Catch | Token::Fn => Part::Opener,
        Token::LeftParen => Part::Paren,
        Token::Pipe => Part::Bar,
        Token::Comma => Part::Comma,
        Token::Period => Part::Period,
        Token::Identifier(_) => Part::Name,
        Token::StringConstant(_) => Part::Text,
        Token::Reserved(_)
        | Token::IntegerConstant(_)
        | Token::CharConstant(_)
        | Token::True
        | Token::False
        | Token::Unit
        | Token::RightParen
        | Token::RightBracket
        | Token::RightBrace => Part::End,
        _ => Part::Other,
    }
}

/// Which names are sought.
#[derive(Clone, Copy, PartialEq, Debug)]
pub enum Declared {
    /// Of variables, parameters and functions.
    Variables,
    /// Of modules.
    Modules,
}

/// Where a name stands, by the tokens before it.
#[derive(Clone, Copy, PartialEq, Debug)]
pub struct Place {
    /// After `let` or `const`.
    pub bound: bool,
    /// After `as`.
    pub renamed: bool,
    /// After `for`, `catch` or `fn`, up to their parentheses.
    pub head: bool,
    /// In the parentheses of a `for`, `catch` or `fn`.
    pub list: bool,
    /// Between the bars of a closure.
    pub bars: bool,
    /// After an operand, so that a bar is an operator.
    pub operand: bool,
}

impl Place {
    // After a token that leads to no declaration.
    const ELSEWHERE: Place = Place {
        bound: false,
        renamed: false,
        head: false,
        list: false,
        bars: false,
        operand: false,
    };

    // Where the text begins.
    #[tactic(auto, unfolding(crate::specs::Names::in_head, crate::specs::Names::in_list, crate::specs::Names::in_bars))]
    fn start() -> Place
        ensures { result ≡ place_after [] }
    {
        Place::ELSEWHERE
    }

    // The place after one more token.
    #[tactic(auto, unfolding(crate::specs::Names::in_head, crate::specs::Names::in_list, crate::specs::Names::in_bars))]
    fn after(self, part: Part) -> Place
        ensures { (before : List Part) → self ≡ place_after before → result ≡ place_after (part ∷ before) }
    {
        let Place {
            head,
            list,
            bars,
            operand,
            ..
        } = self;
        let none = Place::ELSEWHERE;
        match part {
            Part::Binder => Place {
                bound: true,
                ..none
            },
            Part::Renamer => Place {
                renamed: true,
                ..none
            },
            Part::Opener => Place { head: true, ..none },
            Part::Paren => Place { list: head, ..none },
            Part::Bar => Place {
                bars: !operand && !bars,
                ..none
            },
            Part::Comma => Place { list, bars, ..none },
            Part::Period => Place { head, ..none },
            Part::Name => Place {
                head,
                list,
                bars,
                operand: true,
                ..none
            },
            Part::Text => Place {
                head,
                operand: true,
                ..none
            },
            Part::End => Place {
                operand: true,
                ..none
            },
            Part::Other => none,
        }
    }

    // Whether a name here is one that is sought.
    fn declares(self, declared: Declared) -> bool
        ensures { (before : List Part) → self ≡ place_after before → result ≡ is_declared declared before }
    {
        match declared {
            Declared::Variables => self.bound || self.head || self.list || self.bars,
            Declared::Modules => self.renamed,
        }
    }
}

// The name that a token is.
fn name_in(token: &Token) -> Option<&str>
    ensures { option_to_list (option_map (λ n. n.now) result) ≡ name_in token.now }
{
    match token {
        Token::Identifier(name) => Some(name.as_str()),
        _ => None,
    }
}

// The name that a token declares, where it stands.
fn declared_by(place: Place, declared: Declared, token: &Token) -> Option<&str>
    ensures { (before : List Part) → place ≡ place_after before
        → option_to_list (option_map (λ n. n.now) result) ≡ declared_by declared before token.now }
{
    if place.declares(declared) {
        name_in(token)
    } else {
        None
    }
}

// Adds a name that was found.
fn push_found<'a>(names: &mut Vec<&'a str>, found: Option<&'a str>) -> Result<(), AllocError>
    ensures { OnOk result (names.new.items ≡ names.old.items ++ option_to_list found.entry) }
{
    match found {
        Some(name) => Ok(names.push(name)?),
        None => Ok(()),
    }
}

/// The names that the tokens declare, in their order, each as often as it is declared. Returns `AllocError` if memory
/// runs out.
pub fn declared_names<'a>(
    alloc: Global,
    entries: &'a [Entry],
    declared: Declared,
) -> Result<Vec<&'a str>, AllocError>
    ensures { IfOk result (λ names. map (λ n. n.now) names.items ≡ declared_in declared (map token_of entries.now)) }
{
    let mut names = Vec::new(alloc);
    let mut place = Place::start();
    for entry in entries {
        let found = declared_by(place, declared, &entry.token);
        push_found(&mut names, found)?;
        let part = part_of(&entry.token);
        place = place.after(part);
    }
    Ok(names)
}
