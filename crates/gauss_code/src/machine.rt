//! The machine that reads symbols one after another, in one pass.

ghost use Rattle.std.specs.Prelude.{◌≡◌, ◌≢◌, ◌+◌, ◌≤◌, All, IfErr, IfOk, OnOk, length, vec_len};
ghost use Rattle.kh_lex.specs.Lexer.{EndsWithin};
ghost use Rattle.kh_lex.specs.Symbols.{symbols_of};
ghost use Rattle.gauss_code.specs.Grammar.{gauss_spelled};
ghost use Rattle.gauss_code.specs.Machine.{IsGaussFault, entered, start, gauss_step};

use crate::listing::{Body, Listing};
use crate::stop::GaussStop;
use kh_lex::{Symbol, Token, symbol_of};
use kh_types::INPUT_BYTES;
use std::alloc::{AllocError, Global};
use std::marker::Model;
use std::mem;

/// Where the machine stands.
#[derive(Clone, Copy, Debug, PartialEq, Eq)]
pub enum State {
    /// At the beginning.
    Start,
    /// After `GaussCode`.
    Named,
    /// After `GaussCode[`.
    Open,
    /// After a label without braces.
    BareNumber,
    /// After the comma behind it.
    BareComma,
    /// After `{`.
    GroupOpen,
    /// After a label of a group.
    GroupNumber,
    /// After the comma behind it.
    GroupComma,
    /// After `}`.
    GroupEnd,
    /// After the comma behind it.
    NextGroup,
    /// After the `]` of the body, which is an end.
    BodyEnd,
    /// After `Signs`.
    SignsNamed,
    /// After `Signs[`.
    SignsOpen,
    /// After a sign.
    SignNumber,
    /// After the comma behind it.
    SignComma,
    /// After the `]` of the signs, which is the other end.
    Done,
}

/// Where the machine stands, and what it has read: the body, and the numbers behind that.
#[derive(Drop)]
pub struct GaussProgress {
    state: State,
    body: Body,
    numbers: Vec<i32>,
}

impl Model for GaussProgress {
    ghost use Rattle.gauss_code.specs.Machine.{GaussProgress, gauss_progress};

    ghost Value = { GaussProgress };

    ghost view = { λ progress. gauss_progress progress.state progress.body progress.numbers.items };
}

impl GaussProgress {
    /// The machine at its beginning.
    fn new(alloc: Global) -> GaussProgress
        ensures { result ≡ start }
    {
        GaussProgress {
            state: State::Start,
            body: Body::new(alloc),
            numbers: Vec::new(alloc),
        }
    }

    /// Enters a state by a symbol.
    fn enter(&mut self, alloc: Global, next: State, symbol: Symbol) -> Result<(), AllocError>
        ensures { OnOk result (self.new ≡ entered next symbol self.old) }
    {
        self.state = next;
        match (next, symbol) {
            (State::GroupEnd, _) => {
                let group = mem::replace(&mut self.numbers, Vec::new(alloc));
                Ok(self.body.push_group(group)?)
            }
            (State::BodyEnd, _) => {
                let labels = mem::replace(&mut self.numbers, Vec::new(alloc));
                self.body.end(labels);
                Ok(())
            }
            (_, Symbol::Number(number)) => Ok(self.numbers.push(number)?),
            _ => Ok(()),
        }
    }
}

/// What the tokens of a text list, or the place where they leave the grammar.
pub fn listing_of(alloc: Global, text: &[u8], tokens: &[Token]) -> Result<Listing, GaussStop>
    requires short { length text.now ≤ INPUT_BYTES }
    requires within { All (EndsWithin (length text.now)) tokens.now }
    ensures gauss_spelled { IfOk result (λ listing. symbols_of text.now tokens.now ≡ gauss_spelled listing) }
    ensures fault { IfErr result (λ stop.
        stop ≢ GaussStop.NoMemory → IsGaussFault text.now tokens.now stop) }
{
    let mut progress = GaussProgress::new(alloc);
    for token in tokens {
        let symbol = symbol_of(text, token);
        let Some(next) = next_state(progress.state, symbol) else {
            return Err(GaussStop::Text { place: token.place });
        };
        progress.enter(alloc, next, symbol)?;
    }
    match progress.state {
        State::BodyEnd => Ok(Listing {
            body: progress.body,
            signs: None,
        }),
        State::Done => Ok(Listing {
            body: progress.body,
            signs: Some(progress.numbers),
        }),
        _ => Err(GaussStop::Text {
            place: text.len() as u32,
        }),
    }
}

/// Where a symbol leads from a state, if the grammar has it there.
fn next_state(state: State, symbol: Symbol) -> Option<State>
    ensures { result ≡ gauss_step state symbol }
{
    match (state, symbol) {
        (State::Start, Symbol::GaussCode) => Some(State::Named),
        (State::Named, Symbol::LeftBracket) => Some(State::Open),
        (State::Open | State::BareComma, Symbol::Number(_)) => Some(State::BareNumber),
        (State::BareNumber, Symbol::Comma) => Some(State::BareComma),
        (State::Open | State::NextGroup, Symbol::LeftBrace) => Some(State::GroupOpen),
        (State::GroupOpen | State::GroupComma, Symbol::Number(_)) => Some(State::GroupNumber),
        (State::GroupNumber, Symbol::Comma) => Some(State::GroupComma),
        (State::GroupOpen | State::GroupNumber, Symbol::RightBrace) => Some(State::GroupEnd),
        (State::GroupEnd, Symbol::Comma) => Some(State::NextGroup),
        (State::Open | State::BareNumber | State::GroupEnd, Symbol::RightBracket) => {
            Some(State::BodyEnd)
        }
        (State::BodyEnd, Symbol::Signs) => Some(State::SignsNamed),
        (State::SignsNamed, Symbol::LeftBracket) => Some(State::SignsOpen),
        (State::SignsOpen | State::SignComma, Symbol::Number(_)) => Some(State::SignNumber),
        (State::SignNumber, Symbol::Comma) => Some(State::SignComma),
        (State::SignsOpen | State::SignNumber, Symbol::RightBracket) => Some(State::Done),
        _ => None,
    }
}
