//! The machine that reads symbols one after another, in one pass.

ghost use Rattle.std.specs.Prelude.{◌≡◌, ◌≢◌, ◌+◌, ◌≤◌, All, IfErr, IfOk, OnOk, length, vec_len};
ghost use Rattle.kh_lex.specs.Lexer.{EndsWithin};
ghost use Rattle.kh_lex.specs.Symbols.{symbols_of};
ghost use Rattle.pd_code.specs.Grammar.{pd_spelled};
ghost use Rattle.pd_code.specs.Machine.{IsPdFault, added, pd_step};

use crate::item::Item;
use crate::stop::PdStop;
use kh_lex::{Symbol, Token, symbol_of};
use kh_types::INPUT_BYTES;
use std::alloc::{AllocFailed, Global};

/// Where the machine stands, and what it has read of the present item.
#[derive(Clone, Copy, Debug, PartialEq, Eq)]
pub enum State {
    /// At the beginning.
    Start,
    /// After `PD`.
    Named,
    /// After `PD[`.
    Open,
    /// After an item.
    Listed,
    /// After an item and a comma.
    Separated,
    /// After the last `]`.
    Done,
    /// After `X`.
    Crossing,
    /// After `X[`.
    CrossingOpen,
    /// After the first number of a crossing.
    First(i32),
    /// After the comma behind it.
    FirstComma(i32),
    /// After two numbers of a crossing.
    Second(i32, i32),
    /// After the comma behind them.
    SecondComma(i32, i32),
    /// After three numbers of a crossing.
    Third(i32, i32, i32),
    /// After the comma behind them.
    ThirdComma(i32, i32, i32),
    /// After the last number of a crossing.
    Fourth(i32, i32, i32, i32),
    /// After `Loop`.
    Loop,
    /// After `Loop[`.
    LoopOpen,
    /// After the number of a loop.
    LoopNumber(i32),
}

/// The items that the tokens of a text spell, or the place where they leave the grammar.
pub fn items_of(alloc: Global, text: &[u8], tokens: &[Token]) -> Result<Vec<Item>, PdStop>
    requires short { length text.now ≤ INPUT_BYTES }
    requires within { All (EndsWithin (length text.now)) tokens.now }
    ensures pd_spelled { IfOk result (λ items.
        symbols_of text.now tokens.now ≡ pd_spelled items.items) }
    ensures fault { IfErr result (λ stop.
        stop ≢ PdStop.NoMemory → IsPdFault text.now tokens.now stop) }
    ensures few { IfOk result (λ items. vec_len items ≤ length tokens.now) }
{
    let mut items = Vec::new(alloc);
    let mut state = State::Start;
    for token in tokens {
        let Some(next) = next_state(state, symbol_of(text, token)) else {
            return Err(PdStop::Text { place: token.place });
        };
        push_ended(&mut items, state)?;
        state = next;
    }
    match state {
        State::Done => Ok(items),
        _ => Err(PdStop::Text {
            place: text.len() as u32,
        }),
    }
}

/// Where a symbol leads from a state, if the grammar has it there.
fn next_state(state: State, symbol: Symbol) -> Option<State>
    ensures { result ≡ pd_step state symbol }
{
    match (state, symbol) {
        (State::Start, Symbol::Pd) => Some(State::Named),
        (State::Named, Symbol::LeftBracket) => Some(State::Open),
        (State::Open | State::Separated, Symbol::X) => Some(State::Crossing),
        (State::Open | State::Separated, Symbol::Loop) => Some(State::Loop),
        (State::Open | State::Listed, Symbol::RightBracket) => Some(State::Done),
        (State::Listed, Symbol::Comma) => Some(State::Separated),
        (State::Crossing, Symbol::LeftBracket) => Some(State::CrossingOpen),
        (State::CrossingOpen, Symbol::Number(i)) => Some(State::First(i)),
        (State::First(i), Symbol::Comma) => Some(State::FirstComma(i)),
        (State::FirstComma(i), Symbol::Number(j)) => Some(State::Second(i, j)),
        (State::Second(i, j), Symbol::Comma) => Some(State::SecondComma(i, j)),
        (State::SecondComma(i, j), Symbol::Number(k)) => Some(State::Third(i, j, k)),
        (State::Third(i, j, k), Symbol::Comma) => Some(State::ThirdComma(i, j, k)),
        (State::ThirdComma(i, j, k), Symbol::Number(l)) => Some(State::Fourth(i, j, k, l)),
        (State::Loop, Symbol::LeftBracket) => Some(State::LoopOpen),
        (State::LoopOpen, Symbol::Number(n)) => Some(State::LoopNumber(n)),
        (State::Fourth(..) | State::LoopNumber(_), Symbol::RightBracket) => Some(State::Listed),
        _ => None,
    }
}

/// Adds the item that ends as a state is left, if one does.
fn push_ended(items: &mut Vec<Item>, state: State) -> Result<(), AllocFailed<Item>>
    ensures ok { OnOk result (items.new.items ≡ added state items.old.items) }
    ensures more { OnOk result (vec_len items.new ≤ vec_len items.old + 1) }
{
    match state {
        State::Fourth(i, j, k, l) => items.push(Item::Crossing(i, j, k, l)),
        State::LoopNumber(n) => items.push(Item::Loop(n)),
        _ => Ok(()),
    }
}
