use bosh_base::Text;
use std::alloc::{AllocError, Global};
use std::env::{Env, FillError};

/// The size of the first buffer that a word is read into.
const FIRST_ROOM: usize = 256;

/// The words of the command line after the program's name.
pub fn read_words<R: Env>(alloc: Global, rt: &R) -> Result<Vec<Text>, AllocError> {
    let mut words = Vec::new(alloc);
    for place in 1..usize::MAX {
        match read_word(alloc, rt, place)? {
            Some(word) => words.push(word)?,
            None => return Ok(words),
        }
    }
    Ok(words)
}

// The word at a place, where there is one.
fn read_word<R: Env>(alloc: Global, rt: &R, place: usize) -> Result<Option<Text>, AllocError> {
    let mut room = FIRST_ROOM;
    for _ in 0..usize::BITS {
        let mut word = vec![in alloc; 0; room]?;
        match rt.arg(place, &mut word) {
            Ok(count) => {
                word.truncate(count);
                return Ok(Some(Text::from(word)));
            }
            Err(FillError::NotPresent) => return Ok(None),
            Err(FillError::TooLong) => room = room.saturating_mul(2),
        }
    }
    Err(AllocError)
}
