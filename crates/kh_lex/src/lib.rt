//! What the readers of texts share: codes are cut into tokens, which mean symbols; other texts into
//! lines, words and numbers.
#![tactic(auto)]

mod digits;
mod laws;
mod lexer;
mod limits;
mod line;
mod line_words;
mod numeral;
mod piece;
mod stop;
mod symbol;
mod token;

pub use laws::{
    each_text_is_cut_in_one_way, number_limits, numbers_are_written_in_one_way,
    tokens_cut_the_text, worked_tokens,
};
pub use lexer::tokens;
pub use limits::{NUMBER_DIGITS, NUMBER_LIMIT};
pub use line::{line_at, line_count};
pub use line_words::words_of;
pub use numeral::{number_of, signed_number_of};
pub use piece::is_blank;
pub use stop::LexStop;
pub use symbol::{Symbol, symbol_of};
pub use token::{Kind, Token};
