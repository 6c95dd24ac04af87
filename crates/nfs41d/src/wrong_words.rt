//! Which word of a command line for `serve` is wrong.

use crate::shown::{Grouped, Shown};
use nfs_settings::{MAX_STATUS, MOST_AT_ONCE, count_of};
use std::fmt;

/// Why the words are no order.
#[derive(Clone, Copy)]
pub enum Why<'a> {
    /// It belongs to no option.
    Stray(&'a str),
    /// There is no such option.
    NoOption(&'a str),
    /// The option is given again.
    Twice(&'a str),
    /// The option has no value.
    NoValue(&'a str),
    /// The option has another one for its value.
    OptionForValue(&'a str, &'a str),
    /// The value of the option is no number from 1 to this one.
    NoCount(&'a str, &'a str, u32),
    /// No address is given.
    NoAddress,
}

impl fmt::Display for Why<'_> {
    fn fmt<W: fmt::Write>(&self, f: &mut fmt::Formatter<W>) -> fmt::Result {
        match *self {
            Why::Stray(word) => {
                let word = Shown(word);
                write!(f, "'{word}' belongs to no option")
            }
            Why::NoOption(name) => {
                let name = Shown(name);
                write!(f, "serve has no option {name}")
            }
            Why::Twice(name) => write!(f, "{name} is given twice"),
            Why::NoValue(name) => {
                let value = value_of(name);
                write!(f, "{name} wants a value, {value}")
            }
            Why::OptionForValue(name, word) => {
                let (value, word) = (value_of(name), Shown(word));
                write!(
                    f,
                    "{name} wants a value, {value}, and '{word}' would be an option"
                )
            }
            Why::NoCount(name, value, most) => {
                let (value, most) = (Shown(value), Grouped(u64::from(most)));
                write!(f, "{name} is '{value}', and not a number from 1 to {most}")
            }
            Why::NoAddress => f.write_str("serve wants --listen ADDR:PORT"),
        }
    }
}

/// The word for the value of an option.
fn value_of(option: &str) -> &'static str {
    match option {
        "--listen" => "ADDR:PORT",
        "--at-once" => "K",
        "--settings" | "--metrics" | "--client-list" => "FILE",
        "--status" => "S",
        _ => "",
    }
}

/// The greatest number of an option whose value is one.
fn most_of(option: &str) -> Option<u32> {
    match option {
        "--at-once" => Some(MOST_AT_ONCE),
        "--status" => Some(MAX_STATUS),
        _ => None,
    }
}

/// The name of an option as a word gives it, and the value if the word has it too.
fn parts<'a>(word: &'a str) -> (&'a str, Option<&'a str>) {
    match word.split_once('=') {
        Some((name, value)) => (name, Some(value)),
        None => (word, None),
    }
}

/// Whether a word is no value.
fn is_option(word: &str) -> bool {
    word.starts_with('-') && word != "-"
}

/// Which word is wrong, of a program's name, `serve` and its options without a number of connections: the first that cannot be
/// read, then one whose number may not be, then that there is no address.
pub fn wrong<'a>(words: &[&'a str]) -> Option<Why<'a>> {
    let mut waits: Option<&'a str> = None;
    let mut is_over = false;
    for (at, word) in words.iter().enumerate().skip(2) {
        if let Some(name) = waits {
            if is_option(*word) {
                return Some(Why::OptionForValue(name, *word));
            }
            waits = None;
        } else if is_over || !is_option(*word) {
            return Some(Why::Stray(*word));
        } else if *word == "--" {
            is_over = true;
        } else {
            let (name, value) = parts(*word);
            if value_of(name).is_empty() {
                return Some(Why::NoOption(name));
            }
            if is_given(words, at, name) {
                return Some(Why::Twice(name));
            }
            if value.is_none() {
                waits = Some(name);
            }
        }
    }
    match waits {
        Some(name) => Some(Why::NoValue(name)),
        None => wrong_value(words),
    }
}

/// Whether an option is given before a place.
fn is_given(words: &[&str], at: usize, name: &str) -> bool {
    for word in words.iter().take(at) {
        if parts(*word).0 == name {
            return true;
        }
    }
    false
}

/// Which number may not be, or that there is no address.
fn wrong_value<'a>(words: &[&'a str]) -> Option<Why<'a>> {
    let mut waits: Option<&'a str> = None;
    for word in words.iter().skip(2) {
        let (name, value) = match waits {
            Some(name) => (name, Some(*word)),
            None => parts(*word),
        };
        waits = if value.is_none() { Some(name) } else { None };
        if let (Some(most), Some(value)) = (most_of(name), value) {
            if count_of(value, most).is_none() {
                return Some(Why::NoCount(name, value, most));
            }
        }
    }
    if is_given(words, words.len(), "--listen") {
        None
    } else {
        Some(Why::NoAddress)
    }
}
