// Words as texts.
use base_values::TextVal;
use std::alloc::Global;

/// A text of its own.
pub fn owned(alloc: Global, text: &str) -> Option<TextVal> {
    Some(TextVal::new(String::from_str(alloc, text).ok()?))
}

/// A text in which `~` stands for a blank.
pub fn spaced(alloc: Global, word: &str) -> Option<TextVal> {
    let mut text = String::new(alloc);
    for part in word.split('~') {
        if !text.is_empty() {
            text.push_str(" ").ok()?;
        }
        text.push_str(part).ok()?;
    }
    Some(TextVal::new(text))
}
