ghost use Rattle.std.specs.Prelude.{◌≡◌, ◌≢◌, ◌<◌, ◌≤◌, ◌+◌, ◌↔◌, ℕ, Option, Some, false, [], ◌∷◌, ◌++◌, IsTrue, IsUtf8, IfOk, IfSome, IfNone, IsErrOf, OnOk, length, slice_get};
ghost use Rattle.std.specs.List.{list_all};
ghost use Rattle.std.specs.Str.{is_utf8};
ghost use Rattle.lsv_search.specs.Grammar.{Expression, IsArgument, IsSearch, most_depth};
ghost use Rattle.lsv_search.specs.Meaning.{test_of};
ghost use Rattle.lsv_search.specs.Patterns.{IsPattern, IsRefusedPattern};
ghost use Rattle.lsv_search.specs.Places.{FailsAt, Factor, IsFirstBad, IsRefusedArgument, told};
ghost use Rattle.lsv_search.specs.Steps.{AreStepsOf};
ghost use Rattle.lsv_search.specs.declared.expr.ExprFault.{ExprFault};
ghost use Rattle.lsv_search.specs.declared.expr.Stopped.{Stopped};
ghost use Rattle.lsv_search.specs.Reading.{Ends, FailsInExpression, FailsInFactor, GoesOn, IsBadArgument, ReadsArgument, ReadsConjunction, ReadsExpression, ReadsFactor, next_token};

use crate::date::date_in;
use crate::expr::Stopped;
use crate::name::Name;
use crate::pattern::{Pattern, PatternFault};
use crate::step::Step;
use crate::test::Test;
use crate::token::{Start, Token, start_of, token_of};
use crate::{Expr, ExprFault};
use lsv_base::{Bytes, List, NoMem};
use std::alloc::Global;
use std::str;

/// Reads the expression that these words are; no word at all is true of every log. Each word has to be UTF-8.
/// `BadExpression` exactly if the words are none, with the place of the first word that can't be taken: one that the
/// grammar doesn't have there, a parenthesis or `!` nested more than 100 deep, a date that is none, a pattern that regex
/// refuses for another cause than memory; or the number of words if one is missing.
pub fn read_expr(alloc: Global, words: &List<Bytes>) -> Result<Expr, ExprFault>
    requires { IsTrue (list_all is_utf8 words.now) }
    ensures ok { IfOk result (λ e. (searched : Option Expression) × IsSearch words.now searched × AreStepsOf searched e) }
    ensures bad { (at : ℕ) → IsErrOf result (ExprFault.BadExpression at) → IsFirstBad words.now at }
{
    let mut reader = Reader {
        alloc,
        words: words.as_slice(),
        at: 0,
        steps: Vec::new(alloc),
    };
    match read_all(&mut reader) {
        Ok(()) => Ok(Expr {
            steps: reader.steps,
        }),
        Err(Stopped::At(at)) => Err(ExprFault::BadExpression(told(at))),
        Err(Stopped::NoMem) => Err(ExprFault::NoMem),
    }
}

/// A place as it is given.
fn told(at: usize) -> u32
    ensures { result ≡ told at }
{
    at.min(u32::MAX as usize) as u32
}

/// What is read of an expression: the place of the next word, and the steps of what stands before it.
#[derive(Drop)]
pub struct Reader<'a> {
    alloc: Global,
    words: &'a [Bytes],
    at: usize,
    steps: Vec<Step>,
}

/// Reads all words.
fn read_all(reader: &mut Reader<'_>) -> Result<(), Stopped>
    requires words { IsTrue (list_all is_utf8 reader.old.words.now) }
    requires start { (reader.old.at ≡ 0) × (reader.old.steps.items ≡ []) }
    ensures ok { OnOk result ((searched : Option Expression) × IsSearch reader.old.words.now searched × AreStepsOf searched reader.new.steps.items) }
    ensures bad { (at : ℕ) → IsErrOf result (Stopped.At at) → (reader.old.words.now ≢ []) × FailsAt (Factor []) reader.old.words.now at }
{
    if reader.words.is_empty() {
        return Ok(());
    }
    reader.expression(0)?;
    if reader.at < reader.words.len() {
        return Err(Stopped::At(reader.at));
    }
    Ok(())
}

impl Reader<'_> {
    /// What the next word is, if there is one.
    fn token(&self) -> Option<Token>
        ensures { result ≡ next_token self.now }
    {
        Some(token_of(self.words.get(self.at)?.as_slice()))
    }

    /// Adds a step.
    fn push(&mut self, step: Step) -> Result<(), Stopped>
        ensures pushed { OnOk result (self.new.steps.items ≡ self.old.steps.items ++ step ∷ []) }
        ensures kept { (self.new.words ≡ self.old.words) × (self.new.at ≡ self.old.at) }
        ensures memory { (at : ℕ) → IsErrOf result (Stopped.At at) → ⊥ }
    {
        match self.steps.push(step) {
            Ok(()) => Ok(()),
            Err(_) => Err(Stopped::NoMem),
        }
    }

    /// Conjunctions with `or` between them. This many `!` and `(` are open before it.
    #[cycle(reading)]
    fn expression(&mut self, depth: usize) -> Result<(), Stopped>
        requires depth { depth ≤ most_depth }
        requires words { IsTrue (list_all is_utf8 self.old.words.now) }
        requires within { self.old.at ≤ length self.old.words.now }
        ensures ok { OnOk result (ReadsExpression depth self.old self.new) }
        ensures ends { OnOk result (Ends self.new) }
        ensures bad { (at : ℕ) → IsErrOf result (Stopped.At at) → FailsInExpression depth self.old at }
    {
        self.conjunction(depth)?;
        while self.passes_or() {
            self.conjunction(depth)?;
            self.push(Step::Or)?;
        }
        Ok(())
    }

    /// Factors, with `and` between them or nothing.
    #[cycle(reading)]
    fn conjunction(&mut self, depth: usize) -> Result<(), Stopped>
        requires depth { depth ≤ most_depth }
        requires words { IsTrue (list_all is_utf8 self.old.words.now) }
        requires within { self.old.at ≤ length self.old.words.now }
        ensures ok { OnOk result (ReadsConjunction depth self.old self.new) }
        ensures ends { OnOk result (GoesOn (next_token self.new) → ⊥) }
        ensures bad { (at : ℕ) → IsErrOf result (Stopped.At at) → FailsInExpression depth self.old at }
    {
        self.factor(depth)?;
        while self.goes_on() {
            self.factor(depth)?;
            self.push(Step::And)?;
        }
        Ok(())
    }

    /// `!` and a factor, an expression in parentheses, or a name and its argument.
    #[cycle(reading)]
    fn factor(&mut self, depth: usize) -> Result<(), Stopped>
        requires depth { depth ≤ most_depth }
        requires words { IsTrue (list_all is_utf8 self.old.words.now) }
        requires within { self.old.at ≤ length self.old.words.now }
        ensures ok { OnOk result (ReadsFactor depth self.old self.new) }
        ensures bad { (at : ℕ) → IsErrOf result (Stopped.At at) → FailsInFactor depth self.old at }
    {
        match start_of(self.token(), depth) {
            Some(Start::Negation) => {
                self.at += 1;
                self.factor(depth + 1)?;
                self.push(Step::Not)
            }
            Some(Start::Parenthesis) => {
                self.at += 1;
                self.expression(depth + 1)?;
                self.close()
            }
            Some(Start::Test(name)) => {
                self.at += 1;
                self.argument(name)
            }
            None => Err(Stopped::At(self.at)),
        }
    }

    /// Whether another factor belongs to the conjunction; passes over an `and` before it.
    fn goes_on(&mut self) -> bool
        ensures goes { IsTrue result ↔ GoesOn (next_token self.old) }
        ensures kept { (self.new.words ≡ self.old.words) × (self.new.steps ≡ self.old.steps) }
        ensures passed { next_token self.old ≡ Some Token.And → self.new.at ≡ self.old.at + 1 }
        ensures stays { next_token self.old ≢ Some Token.And → self.new.at ≡ self.old.at }
    {
        match self.token() {
            Some(Token::And) => {
                self.at += 1;
                true
            }
            Some(Token::Exclamation | Token::Opening | Token::Word(Some(_))) => true,
            _ => false,
        }
    }

    /// Whether an `or` is there; passes over it.
    fn passes_or(&mut self) -> bool
        ensures passed { IsTrue result → (next_token self.old ≡ Some Token.Or) × (self.new.at ≡ self.old.at + 1) }
        ensures stays { result ≡ false → (next_token self.old ≢ Some Token.Or) × (self.new.at ≡ self.old.at) }
        ensures kept { (self.new.words ≡ self.old.words) × (self.new.steps ≡ self.old.steps) }
    {
        match self.token() {
            Some(Token::Or) => {
                self.at += 1;
                true
            }
            _ => false,
        }
    }

    /// A closing parenthesis.
    fn close(&mut self) -> Result<(), Stopped>
        ensures closed { OnOk result ((next_token self.old ≡ Some Token.Closing) × (self.new.at ≡ self.old.at + 1)) }
        ensures kept { (self.new.words ≡ self.old.words) × (self.new.steps ≡ self.old.steps) }
        ensures bad { (at : ℕ) → IsErrOf result (Stopped.At at) → (at ≡ self.old.at) × (next_token self.old ≢ Some Token.Closing) }
    {
        if self.token() != Some(Token::Closing) {
            return Err(Stopped::At(self.at));
        }
        self.at += 1;
        Ok(())
    }

    /// The argument of a name.
    fn argument(&mut self, name: Name) -> Result<(), Stopped>
        requires { IsTrue (list_all is_utf8 self.old.words.now) }
        ensures ok { OnOk result (ReadsArgument name self.old self.new) }
        ensures bad { (at : ℕ) → IsErrOf result (Stopped.At at) → (at ≡ self.old.at) × IsBadArgument name (slice_get self.old.words.now at) }
    {
        let Some(word) = self.words.get(self.at) else {
            return Err(Stopped::At(self.at));
        };
        match test_of(self.alloc, name, word)? {
            Some(test) => self.take(test),
            None => Err(Stopped::At(self.at)),
        }
    }

    /// Adds a test, and passes over its argument.
    fn take(&mut self, test: Test) -> Result<(), Stopped>
        requires { self.old.at < length self.old.words.now }
        ensures pushed { OnOk result ((self.new.steps.items ≡ self.old.steps.items ++ Step.Test test ∷ []) × (self.new.at ≡ self.old.at + 1)) }
        ensures kept { self.new.words ≡ self.old.words }
        ensures memory { (at : ℕ) → IsErrOf result (Stopped.At at) → ⊥ }
    {
        self.push(Step::Test(test))?;
        self.at += 1;
        Ok(())
    }
}

/// The test that a name and its argument are. None if the argument is refused.
fn test_of(alloc: Global, name: Name, word: &Bytes) -> Result<Option<Test>, NoMem>
    requires { IsUtf8 word.now }
    ensures test { IfOk result (λ o. IfSome o (λ test. (test_of name word.now ≡ Some test) × IsArgument name word.now)) }
    ensures refused { IfOk result (λ o. IfNone o (IsRefusedArgument name word.now)) }
{
    let text = word.copy(alloc)?;
    Ok(Some(match name {
        Name::Command => return command(alloc, word),
        Name::FromDate => return Ok(date_in(alloc, word.as_slice())?.map(Test::FromDate)),
        Name::ToDate => return Ok(date_in(alloc, word.as_slice())?.map(Test::ToDate)),
        Name::Cwd => Test::Cwd(text),
        Name::Group => Test::Group(text),
        Name::Host => Test::Host(text),
        Name::Runas => Test::Runas(text),
        Name::Tty => Test::Tty(text),
        Name::User => Test::User(text),
    }))
}

/// The test of a command by a pattern. None if regex refuses it.
fn command(alloc: Global, word: &Bytes) -> Result<Option<Test>, NoMem>
    requires { IsUtf8 word.now }
    ensures test { IfOk result (λ o. IfSome o (λ test. (test ≡ Test.Command word.now) × IsPattern word.now)) }
    ensures refused { IfOk result (λ o. IfNone o (IsRefusedPattern word.now)) }
{
    let Ok(text) = str::from_utf8(word.as_slice()) else {
        unreachable!();
    };
    match Pattern::new(alloc, text) {
        Ok(pattern) => Ok(Some(Test::Command(pattern))),
        Err(PatternFault::Refused) => Ok(None),
        Err(PatternFault::NoMem) => Err(NoMem),
    }
}
