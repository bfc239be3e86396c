//! Texts that are printed piece by piece, without memory.
//!
//! A text is a list of [`Piece`]s, and one call of [`print_pieces`] prints it. A [`LineBuffer`] is shared by many texts, so that one
//! write of the sink takes many pieces.
#![tactic(auto)]

mod line_buffer;
mod pieces;

pub use crate::line_buffer::LineBuffer;
pub use crate::pieces::{Piece, print_pieces, push_pieces};
