//! Long texts, made of pieces.

use mb_model::NoMemory;
use std::alloc::Global;

/// The text of these pieces, each as often as its number says.
pub fn text_of(alloc: Global, pieces: &[(&str, usize)]) -> Result<Vec<u8>, NoMemory> {
    let mut text = Vec::new(alloc);
    for (piece, times) in pieces {
        for _i in 0..*times {
            text.extend_from_slice(piece.as_bytes())?;
        }
    }
    Ok(text)
}
