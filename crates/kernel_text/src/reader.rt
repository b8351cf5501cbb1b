//! Reading tokens from left to right, up to the first fault.

ghost use Rattle.std.specs.Prelude.{◌≡◌, ◌≢◌, ◌++◌, ◌+◌, ◌-◌, List, Option, Some, None, IfOk, IfErr, IfNone, IfSome, OnOk, false, map, drop, option_map};
ghost use Rattle.kernel_text.specs.declared.faults.KernelKind.TheVariants as kind;
ghost use Rattle.kernel_text.specs.declared.faults.KernelFault.{KernelFault};
ghost use Rattle.kernel_text.specs.declared.senses.Wanted.{Wanted};
ghost use Rattle.kernel_text.specs.Tokens.{text_of, value_of};
ghost use Rattle.kernel_text.specs.Lexemes.{token_of, placed_of};
ghost use Rattle.kernel_text.specs.Readings.{read, may_end};
ghost use Rattle.kernel_text.specs.Senses.{taken, reading_of, next_token};
ghost use Rattle.kernel_text.specs.Known.{Known, at_start, known_after, declared_after, size_after, values_after, words_after, variables_after, loops_after, kind_of, count_of, opens, closes};
ghost use Rattle.kernel_text.specs.Room.{Fits};
ghost use Rattle.kernel_text.specs.Faults.{kind_of_trials, trials, behind_token, first_token_fault, next_of, is_one_value_too_many, has_too_many_words, is_too_nested, is_loop_variable, is_one_variable_too_many, is_too_long, is_double_name};

use crate::agenda::Agenda;
use crate::faults::{KernelFault, KernelKind, out_of_memory};
use crate::names::{DeclaredNames, Variables};
use crate::senses::{Role, Sense, Wanted};
use crate::tokens::{Lexeme, Lexemes, Token};
use pei_types::OutOfMemory;
use std::alloc::Global;
use std::marker::Model;

/// How many brackets, parentheses and braces may be open.
const MOST_OPEN: u32 = 16;

/// How many variables a kernel may have.
const MOST_VARIABLES: usize = 8;

/// How many statements, operators and terms a kernel may have.
const MOST_PARTS: u32 = 4000;

/// What is known where a token stands.
#[derive(Drop)]
pub(crate) struct Reader<'a> {
    wanted: Agenda,
    declared: DeclaredNames<'a>,
    /// The size of the name that was declared last, how many numbers it has, and all sizes together.
    size: u64,
    values: u64,
    words: u64,
    variables: Variables<'a>,
    /// The variables of the loops around, the innermost last.
    loops: Variables<'a>,
    brackets: u32,
    begun: u32,
}

impl<'a> Model for Reader<'a> {
    ghost use Rattle.kernel_text.specs.Known.{Known};

    ghost Value = { Known };

    ghost view = { λ r. record { wanted = r.wanted; declared = r.declared; size = r.size; values = r.values; words = r.words; variables = r.variables; loops = r.loops; brackets = r.brackets; begun = r.begun } };
}

/// The size of the name that was declared last, behind a token with this role.
fn size_after(size: u64, role: Role, n: u64) -> u64
    ensures { result ≡ size_after size role n }
{
    match role {
        Role::Sizes => n,
        _ => size,
    }
}

/// How many numbers it has.
fn values_after(values: u64, size: u64, role: Role) -> u64
    requires { is_one_value_too_many role values size ≡ false }
    ensures { result ≡ values_after values role }
{
    match role {
        Role::Sizes => 0,
        Role::Gives => values + 1,
        _ => values,
    }
}

/// All sizes together.
fn words_after(words: u64, role: Role, n: u64) -> u64
    requires { has_too_many_words role words n ≡ false }
    ensures { result ≡ words_after words role n }
{
    match role {
        Role::Sizes => words + n,
        _ => words,
    }
}

fn learn_declared<'a>(
    declared: &mut DeclaredNames<'a>,
    role: Role,
    name: &'a [u8],
) -> Result<(), OutOfMemory>
    requires { is_double_name role (kind_of declared.old name.now) ≡ false }
    ensures { OnOk result (declared.new ≡ declared_after declared.old role name.now) }
{
    match role {
        Role::Declares { array } => declared.declare(name, array),
        _ => Ok(()),
    }
}

fn learn_variable<'a>(
    variables: &mut Variables<'a>,
    role: Role,
    name: &'a [u8],
) -> Result<(), OutOfMemory>
    ensures { OnOk result (variables.new ≡ variables_after variables.old role name.now) }
{
    if role.sets() && !variables.contains(name) {
        return variables.push(name);
    }
    Ok(())
}

fn learn_loop<'a>(loops: &mut Variables<'a>, role: Role, name: &'a [u8]) -> Result<(), OutOfMemory>
    ensures { OnOk result (loops.new ≡ loops_after loops.old role name.now) }
{
    match role {
        Role::Counts => loops.push(name),
        Role::Leaves => {
            loops.pop();
            Ok(())
        }
        _ => Ok(()),
    }
}

/// The seventeenth open bracket.
fn is_too_nested(brackets: u32, t: Token<'_>) -> bool
    ensures { result ≡ is_too_nested brackets (token_of t.entry) }
{
    t.opens() && brackets >= MOST_OPEN
}

fn is_loop_variable(role: Role, loops: &Variables<'_>, name: &[u8]) -> bool
    ensures { result ≡ is_loop_variable role loops.now name.now }
{
    role.sets() && loops.contains(name)
}

/// The ninth variable.
fn is_one_variable_too_many(role: Role, variables: &Variables<'_>, name: &[u8]) -> bool
    ensures { result ≡ is_one_variable_too_many role variables.now name.now }
{
    role.sets() && !variables.contains(name) && variables.len() >= MOST_VARIABLES
}

fn is_too_long(begun: u32, begins: bool) -> bool
    ensures { result ≡ is_too_long begun begins }
{
    if begins {
        begun >= MOST_PARTS
    } else {
        begun > MOST_PARTS
    }
}

fn brackets_after(brackets: u32, t: Token<'_>) -> u32
    requires { is_too_nested brackets (token_of t) ≡ false }
    ensures { result ≡ brackets + count_of (opens (token_of t.entry)) - count_of (closes (token_of t.entry)) }
{
    if t.opens() {
        (brackets + 1).saturating_sub(u32::from(t.closes()))
    } else {
        brackets.saturating_sub(u32::from(t.closes()))
    }
}

fn begun_after(begun: u32, begins: bool) -> u32
    requires { is_too_long begun begins ≡ false }
    ensures { result ≡ begun + count_of begins }
{
    if begins { begun + 1 } else { begun }
}

impl<'a> Reader<'a> {
    /// What is known before the first token.
    pub(crate) fn make(alloc: Global) -> Result<Reader<'a>, OutOfMemory>
        ensures { IfOk result (λ r. r ≡ at_start) }
    {
        let mut wanted = Agenda::make(alloc);
        wanted.want(&[Wanted::Declarations, Wanted::Statements])?;
        Ok(Reader {
            wanted,
            declared: DeclaredNames::make(alloc),
            size: 0,
            values: 0,
            words: 0,
            variables: Variables::make(alloc),
            loops: Variables::make(alloc),
            brackets: 0,
            begun: 0,
        })
    }

    /// Whether the text may end here.
    pub(crate) fn may_end(&self) -> bool
        ensures { result ≡ may_end self.now.wanted }
    {
        self.wanted.may_end()
    }

    /// The first kind of fault that applies to a token of this sense.
    fn kind_of_fault(&self, t: Token<'a>, sense: Sense) -> Option<KernelKind>
        ensures value { (behind : List Wanted) → result ≡ kind_of_trials (trials self.now (reading_of sense behind) (token_of t.entry)) }
        ensures kind { IfSome result (λ k. k ≢ kind.OutOfMemory) }
        ensures fits { IfNone result (Fits self.now sense.role sense.begins (token_of t.entry)) }
    {
        let Sense { role, begins } = sense;
        let name = t.text().as_bytes();
        let n = t.value();
        let declared = self.declared.kind(name);
        let variable = self.variables.contains(name);
        if is_too_nested(self.brackets, t) {
            Some(KernelKind::TooNested)
        } else if role.is_double_name(declared) {
            Some(KernelKind::DoubleName)
        } else if role.is_unknown(declared, variable) {
            Some(KernelKind::Unknown)
        } else if role.is_wrong_kind(declared, variable) {
            Some(KernelKind::WrongKind)
        } else if is_loop_variable(role, &self.loops, name) {
            Some(KernelKind::LoopVariable)
        } else if is_one_variable_too_many(role, &self.variables, name) {
            Some(KernelKind::TooManyVariables)
        } else if role.is_bad_size(n) {
            Some(KernelKind::BadSize)
        } else if role.is_one_value_too_many(self.values, self.size) {
            Some(KernelKind::TooManyValues)
        } else if role.has_too_many_words(self.words, n) {
            Some(KernelKind::TooManyWords)
        } else if role.is_too_deep() {
            Some(KernelKind::TooDeep)
        } else if is_too_long(self.begun, begins) {
            Some(KernelKind::TooLong)
        } else {
            None
        }
    }

    /// Learns what a token of this sense tells. What is wanted behind it is known already.
    fn learn(&mut self, t: Token<'a>, sense: Sense) -> Result<(), OutOfMemory>
        requires { Fits self.old sense.role sense.begins (token_of t) }
        ensures { OnOk result (self.new ≡ known_after self.old (reading_of sense self.old.wanted) (token_of t.entry)) }
    {
        let Sense { role, begins } = sense;
        let name = t.text().as_bytes();
        let n = t.value();
        learn_declared(&mut self.declared, role, name)?;
        learn_variable(&mut self.variables, role, name)?;
        learn_loop(&mut self.loops, role, name)?;
        self.values = values_after(self.values, self.size, role);
        self.size = size_after(self.size, role, n);
        self.words = words_after(self.words, role, n);
        self.brackets = brackets_after(self.brackets, t);
        self.begun = begun_after(self.begun, begins);
        Ok(())
    }

    /// Reads the next token, behind which `next` stands.
    fn step(&mut self, lexeme: Lexeme<'a>, next: Option<Token<'a>>) -> Result<(), KernelFault>
        ensures ok { OnOk result ((later : Known → Option KernelFault) → behind_token self.old (placed_of lexeme.entry) later (read self.old.wanted (token_of lexeme.entry.token) (next_token next.entry)) ≡ later self.new) }
        ensures fault { IfErr result (λ f. f.kind ≢ kind.OutOfMemory → (later : Known → Option KernelFault) → behind_token self.old (placed_of lexeme.entry) later (read self.old.wanted (token_of lexeme.entry.token) (next_token next.entry)) ≡ Some f) }
        ensures memory { IfErr result (λ f. f.kind ≡ kind.OutOfMemory → (f.line ≡ 0) × (f.column ≡ 0)) }
    {
        let Lexeme { place, token } = lexeme;
        let Ok(sense) = self.wanted.read(token, next) else {
            return Err(out_of_memory());
        };
        let Some(sense) = sense else {
            return Err(place.fault(KernelKind::Syntax));
        };
        if let Some(kind) = self.kind_of_fault(token, sense) {
            return Err(place.fault(kind));
        }
        let Ok(()) = self.learn(token, sense) else {
            return Err(out_of_memory());
        };
        Ok(())
    }
}

/// The token at a place, if there is one.
fn token_at<'a>(items: &[Lexeme<'a>], i: usize) -> Option<Token<'a>>
    ensures { next_token result ≡ next_of (map placed_of (drop i items.now)) }
{
    if i < items.len() {
        Some(items[i].token)
    } else {
        None
    }
}

/// Finds the first fault of tokens whose characters and numbers have none.
pub(crate) fn check(alloc: Global, tokens: &Lexemes<'_>) -> Result<(), KernelFault>
    ensures ok { OnOk result (first_token_fault tokens.now.end (map placed_of tokens.now.items.items) at_start ≡ None) }
    ensures fault { IfErr result (λ f. f.kind ≢ kind.OutOfMemory → first_token_fault tokens.now.end (map placed_of tokens.now.items.items) at_start ≡ Some f) }
    ensures memory { IfErr result (λ f. f.kind ≡ kind.OutOfMemory → (f.line ≡ 0) × (f.column ≡ 0)) }
{
    let Ok(mut reader) = Reader::make(alloc) else {
        return Err(out_of_memory());
    };
    let items = tokens.items.as_slice();
    for i in 0..items.len() {
        reader.step(items[i], token_at(items, i + 1))?;
    }
    if !reader.may_end() {
        return Err(tokens.end.fault(KernelKind::Syntax));
    }
    Ok(())
}
