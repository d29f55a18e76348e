//! Words and trees: what the bytes of a domain or a problem file spell.
#![tactic(auto)]

mod bytes;
pub mod fault;
pub mod laws;
mod names;
mod parser;
mod reader;
pub mod sexpr;
pub mod token;

pub use bytes::is_white;
pub use fault::TextFault;
pub use names::{is_name, is_variable};
pub use parser::tree;
pub use sexpr::{Sexpr, first_of, has_list, only};
pub use token::{Token, TokenKind, tokens};
