ghost use Rattle.std.specs.Prelude.{◌≡◌};
ghost use Rattle.lsv_search.specs.Places.{token_of};
ghost use Rattle.lsv_search.specs.Reading.{starting};

use crate::name::{Name, name_in};

/// What a word is, if no argument is due.
#[derive(Clone, Copy, Debug, PartialEq, Eq)]
pub enum Token {
    /// `!`
    Exclamation,
    /// `(`
    Opening,
    /// `)`
    Closing,
    /// `and`
    And,
    /// `or`
    Or,
    /// Another word, with the name that it stands for.
    Word(Option<Name>),
}

/// What a word is.
pub fn token_of(word: &[u8]) -> Token
    ensures { result ≡ token_of word.now }
{
    if word == b"!".as_slice() {
        Token::Exclamation
    } else if word == b"(".as_slice() {
        Token::Opening
    } else if word == b")".as_slice() {
        Token::Closing
    } else if word == b"and".as_slice() {
        Token::And
    } else if word == b"or".as_slice() {
        Token::Or
    } else {
        Token::Word(name_in(word))
    }
}

/// What a word begins if a factor is due.
#[derive(Clone, Copy, Debug, PartialEq, Eq)]
pub enum Start {
    Negation,
    Parenthesis,
    Test(Name),
}

/// How deep `!` and `(` may be nested.
const MOST_DEPTH: usize = 100;

/// What a word begins if a factor is due and this many `!` and `(` are open, if it begins something.
pub fn start_of(token: Option<Token>, depth: usize) -> Option<Start>
    ensures { result ≡ starting depth token }
{
    match token? {
        Token::Exclamation if depth < MOST_DEPTH => Some(Start::Negation),
        Token::Opening if depth < MOST_DEPTH => Some(Start::Parenthesis),
        Token::Word(Some(name)) => Some(Start::Test(name)),
        _ => None,
    }
}
