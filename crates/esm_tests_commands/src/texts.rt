// Texts of a line: its words, and numbers with leading zeros.
use esm_model::OutOfMemory;
use std::alloc::Global;

/// Appends the words of a text, which are separated by white space.
fn add_plain(alloc: Global, words: &mut Vec<String>, text: &str) -> Result<(), OutOfMemory> {
    for word in text.split_whitespace() {
        words.push(String::from_str(alloc, word)?)?;
    }
    Ok(())
}

/// Returns the words of a command line: they are separated by white space, and what is in single quotes is one word.
pub fn words_of(alloc: Global, text: &str) -> Result<Vec<String>, OutOfMemory> {
    let mut words = Vec::new(alloc);
    let mut quoted = false;
    for piece in text.split("'") {
        if quoted {
            words.push(String::from_str(alloc, piece)?)?;
        } else {
            add_plain(alloc, &mut words, piece)?;
        }
        quoted = !quoted;
    }
    Ok(words)
}

/// Returns the number with leading zeros, with at least this many digits.
pub fn padded(alloc: Global, number: u64, digits: usize) -> Result<String, OutOfMemory> {
    let plain = format!(in alloc; "{number}")?;
    let mut text = String::new(alloc);
    for _ in plain.len()..digits {
        text.push_str("0")?;
    }
    text.push_str(plain.as_str())?;
    Ok(text)
}
