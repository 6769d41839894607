//! Cuts a text into tokens.

ghost use Rattle.std.specs.Prelude.{◌≡◌, ◌≢◌, ◌≤◌, ◌++◌, All, IfErr, IfOk, OnOk, length, vec_len};
ghost use Rattle.std.specs.Option.{option_to_list};
ghost use Rattle.kh_lex.specs.Cuts.{Cuts, Stops};
ghost use Rattle.kh_lex.specs.Lexer.{EndsWithin};

use crate::piece::{piece_at, piece_length, rest_from};
use crate::stop::LexStop;
use crate::token::Token;
use kh_types::INPUT_BYTES;
use std::alloc::{AllocFailed, Global};

/// The tokens that cut a text, in order; or the first fault in the text.
pub fn tokens(alloc: Global, text: &[u8]) -> Result<Vec<Token>, LexStop>
    requires { length text.now ≤ INPUT_BYTES }
    ensures cut { IfOk result (λ tokens. Cuts 0 text.now tokens.items) }
    ensures fault { IfErr result (λ stop. stop ≢ LexStop.NoMemory → Stops 0 text.now stop) }
    ensures within { IfOk result (λ tokens. All (EndsWithin (length text.now)) tokens.items) }
    ensures few { IfOk result (λ tokens. vec_len tokens ≤ length text.now) }
{
    let mut tokens = Vec::new(alloc);
    let mut place = 0;
    while place < text.len() {
        let piece = piece_at(place as u32, rest_from(text, place))?;
        push_piece(&mut tokens, &piece)?;
        place += piece_length(&piece) as usize;
    }
    Ok(tokens)
}

/// Adds the token that a piece is, if it is one.
fn push_piece(tokens: &mut Vec<Token>, piece: &Option<Token>) -> Result<(), AllocFailed<Token>>
    ensures { OnOk result (tokens.new.items ≡ tokens.old.items ++ option_to_list piece.now) }
{
    match piece {
        Some(token) => tokens.push(*token),
        None => Ok(()),
    }
}
