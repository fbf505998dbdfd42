//! Why a word of a search isn't taken.

ghost use Rattle.std.specs.Prelude.{◌≡◌, ℕ, List, [], option_map, take};
ghost use Rattle.lsv_search.specs.BadWords.{IsReasonAt, after_token, bad_word, due_after, due_after_all, no_argument, no_operator, no_start, reason};
ghost use Rattle.lsv_search.specs.Places.{FailsAt, Factor};

use crate::name::Name;
use crate::token::{Token, token_of};
use lsv_base::{Bytes, List};

/// Why a word of a search isn't taken, or which word is missing after the last one.
#[derive(Clone, Copy, Debug, PartialEq, Eq)]
pub enum BadWord {
    /// A search is due here.
    NeedsSearch,
    /// No name of a search begins with it, or more than one does.
    NoName,
    /// It would nest `!` or `(` more than 100 deep.
    TooDeep,
    /// `)`, and no `(` is open.
    NotOpen,
    /// The words end, and a `(` is open.
    NotClosed,
    /// It is no date.
    NoDate,
    /// It is no regular expression.
    NoPattern,
    /// The words end after this name, which needs an argument.
    NeedsArgument(Name),
}

/// What is due at a place of a search.
#[derive(Clone, Copy, Debug)]
pub enum Due {
    Search,
    Argument(Name),
    Operator,
}

/// Why the word at this place, counted from 0, isn't taken, or which word is missing if it is the number of the words: the
/// place is one that `read_expr` answers with `BadExpression`, and is below 2^32 - 1.
pub fn bad_word(words: &List<Bytes>, at: u32) -> BadWord
    ensures { result ≡ bad_word words.now at }
{
    let words = words.as_slice();
    let at = at as usize;
    let due = due_at(first_words(words, at));
    match words.get(at) {
        Some(word) => reason(due, Some(word.as_slice())),
        None => reason(due, None),
    }
}

/// The first words, up to this many.
fn first_words(words: &[Bytes], count: usize) -> &[Bytes]
    ensures { result.now ≡ take count words.now }
{
    if count < words.len() {
        &words[..count]
    } else {
        words
    }
}

/// What is due after these words.
fn due_at(words: &[Bytes]) -> Due
    ensures { result ≡ due_after_all words.now }
{
    let mut due = Due::Search;
    for word in words {
        due = due_after(due, word.as_slice());
    }
    due
}

/// What is due after a word that is taken.
fn due_after(due: Due, word: &[u8]) -> Due
    ensures { result ≡ due_after due word.now }
{
    match due {
        Due::Argument(_) => Due::Operator,
        Due::Search | Due::Operator => after_token(token_of(word)),
    }
}

/// What is due after a word that begins a search, or follows one.
fn after_token(token: Token) -> Due
    ensures { result ≡ after_token token }
{
    match token {
        Token::Closing => Due::Operator,
        Token::Word(Some(name)) => Due::Argument(name),
        _ => Due::Search,
    }
}

/// Why a word isn't taken, or why one is missing, if this is due.
fn reason(due: Due, word: Option<&[u8]>) -> BadWord
    ensures { result ≡ reason due (option_map (λ w. w.now) word.entry) }
{
    match (due, word) {
        (Due::Search, None) => BadWord::NeedsSearch,
        (Due::Argument(name), None) => BadWord::NeedsArgument(name),
        (Due::Operator, None) => BadWord::NotClosed,
        (Due::Search, Some(word)) => no_start(token_of(word)),
        (Due::Argument(name), Some(_)) => no_argument(name),
        (Due::Operator, Some(word)) => no_operator(token_of(word)),
    }
}

/// Why a word isn't taken if a search is due.
fn no_start(token: Token) -> BadWord
    ensures { result ≡ no_start token }
{
    match token {
        Token::Exclamation | Token::Opening => BadWord::TooDeep,
        Token::Closing | Token::And | Token::Or => BadWord::NeedsSearch,
        Token::Word(_) => BadWord::NoName,
    }
}

/// Why a word isn't taken after a search.
fn no_operator(token: Token) -> BadWord
    ensures { result ≡ no_operator token }
{
    match token {
        Token::Exclamation | Token::Opening => BadWord::TooDeep,
        Token::Closing => BadWord::NotOpen,
        Token::And | Token::Or => BadWord::NeedsSearch,
        Token::Word(_) => BadWord::NoName,
    }
}

/// Why a word isn't taken as the argument of a name.
fn no_argument(name: Name) -> BadWord
    ensures { result ≡ no_argument name }
{
    match name {
        Name::Command => BadWord::NoPattern,
        Name::FromDate | Name::ToDate => BadWord::NoDate,
        other => BadWord::NeedsArgument(other),
    }
}

/// At the place of the first bad word the grammar fails, and the reason is by what is due there. It does nothing when it
/// runs.
pub fn the_reason_is_by_what_is_due()
    ensures { (words : List (List ℕ)) → (at : ℕ) → FailsAt (Factor []) words at → IsReasonAt words at }
{}
