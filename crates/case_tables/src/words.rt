//! Words that come of a case.

use std::alloc::Global;

pub fn word(alloc: Global, word: &str) -> Option<String> {
    String::from_str(alloc, word).ok()
}

/// Puts a word behind those before it, with what separates them.
pub fn push_word(words: &mut String, separator: &str, word: &str) -> Option<()> {
    if !words.is_empty() {
        words.push_str(separator).ok()?;
    }
    words.push_str(word).ok()
}

/// The words of each thing, with what separates them.
pub fn listed<T, F: Fn(Global, &T) -> Option<String> + Drop>(
    alloc: Global,
    things: &[T],
    separator: &str,
    words: F,
) -> Option<String>
    requires { F.IsAlwaysCallable words }
{
    let mut all = String::new(alloc);
    for thing in things {
        push_word(&mut all, separator, words(alloc, thing)?.as_str())?;
    }
    Some(all)
}
