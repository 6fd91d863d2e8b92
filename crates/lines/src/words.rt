// A line, word by word.
use crate::errors::Expected;
use crate::parsing::parse_root;
use wire::Root;

// What is left of a text, and what is expected where it ends too early.
#[derive(Drop)]
pub(crate) struct Words<'a> {
    pub(crate) rest: &'a str,
    expected: Expected,
}

impl<'a> Words<'a> {
    // All words of a text.
    pub(crate) fn of(text: &'a str, expected: Expected) -> Words<'a> {
        Words {
            rest: text,
            expected,
        }
    }

    // Whether nothing is left.
    pub(crate) fn is_over(&self) -> bool {
        self.rest.is_empty()
    }

    // The next word, which is empty where nothing is left.
    pub(crate) fn word(&mut self) -> &'a str {
        let (word, rest) = self.rest.split_once(" ").unwrap_or((self.rest, ""));
        self.rest = rest;
        word
    }

    // The next word as a number, where there is one.
    pub(crate) fn number(&mut self) -> Result<u64, Expected> {
        if self.is_over() {
            return Err(self.expected);
        }
        Ok(self.word().parse::<u64>()?)
    }

    // A number behind a word.
    pub(crate) fn named_number(&mut self) -> Result<u64, Expected> {
        self.word();
        self.number()
    }

    // The next word as a root.
    pub(crate) fn root(&mut self) -> Result<Root, Expected> {
        parse_root(self.word())
    }
}
