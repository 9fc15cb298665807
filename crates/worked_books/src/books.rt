//! What a plugin answers, written down call by call.

use crate::random::Random;
use plain_program::{Script, Written};
use serde_json::Value;
use sp_model::{Access, Ending, Reply};
use sp_value::{Cell, Cells, Text, from_json};
use sqlite_items::Items;
use std::alloc::Global;

const ERRORS: [&str; 4] = [
    "busy: later",
    "busy: much later",
    "gone: away",
    "broken: down",
];

/// Writes replies: one in `odds` of them ends in an error, and one in `odds` of the items has a text for its size.
#[derive(Drop)]
struct Writer {
    alloc: Global,
    random: Random,
    odds: u32,
    written: Items<Written>,
}

impl Writer {
    fn ending(&mut self) -> Option<Ending> {
        if !self.random.one_in(self.odds) {
            return Some(Ending::End);
        }
        let text = self.random.pick(&ERRORS);
        Some(Ending::Error(Text::from_str(self.alloc, text).ok()?))
    }

    /// An item, whose name is a word and a number.
    fn item(&mut self, word: &str, number: u32) -> Option<Cell> {
        let quote = if self.random.one_in(self.odds) {
            "\""
        } else {
            ""
        };
        let size = self.random.below(9);
        let text = format!(in self.alloc;
            "{{\"name\":\"{word}{number}\",\"size\":{quote}{size}{quote}}}"
        ).ok()?;
        from_json(
            self.alloc,
            &Value::from_str(self.alloc, text.as_str()).ok()?,
        )
        .ok()
    }

    /// How many items are given: one in most cases, where that is the most.
    fn count(&mut self, most: u32) -> u32 {
        if most > 1 {
            return self.random.below(most.saturating_add(1));
        }
        match self.random.below(self.odds.max(10)) {
            0 => 2,
            1 => 0,
            _ => 1,
        }
    }

    fn items(&mut self, word: &str, count: u32) -> Option<Cells> {
        let mut items = Items::new(self.alloc);
        for number in 0..count {
            items.push(self.item(word, number)?).ok()?;
        }
        Some(items)
    }

    /// Writes the reply to each attempt of a call.
    fn write(&mut self, function: &str, subject: &str, word: &str, most: u32) -> Option<()> {
        for attempt in 1..4 {
            let count = self.count(most);
            let reply = Reply {
                items: self.items(word, count)?,
                ending: self.ending()?,
            };
            let written = Written {
                function: Text::from_str(self.alloc, function).ok()?,
                subject: Text::from_str(self.alloc, subject).ok()?,
                attempt,
                reply,
            };
            self.written.push(written).ok()?;
        }
        Some(())
    }

    /// Writes what the functions give for items whose names begin with a word.
    fn write_functions(&mut self, word: &str) -> Option<()> {
        for number in 0..5u32 {
            let name = format!(in self.alloc; "{word}{number}").ok()?;
            for function in ["f0", "f1", "f2"] {
                self.write(function, name.as_str(), "r", 1)?;
            }
        }
        Some(())
    }

    /// Writes the list under an item, and what the functions give for its items.
    fn write_list(&mut self, subject: &str, word: &str) -> Option<()> {
        self.write("list", subject, word, 5)?;
        self.write_functions(word)
    }

    fn write_all(&mut self, access: Access) -> Option<()> {
        match access {
            Access::Get => {
                self.write("get", "", "i", 1)?;
                self.write_functions("i")
            }
            Access::List => self.write_list("", "i"),
            Access::Parents => {
                self.write("parents", "", "p", 4)?;
                for (name, word) in [("p0", "p0i"), ("p1", "p1i"), ("p2", "p2i"), ("p3", "p3i")] {
                    self.write_list(name, word)?;
                }
                Some(())
            }
        }
    }
}

/// A book of a table whose items are asked for in a way.
pub fn script(alloc: Global, random: &mut Random, access: Access) -> Option<Script> {
    let odds = match random.below(4) {
        0 => 1_000_000,
        1 => 200,
        2 => 50,
        _ => 10,
    };
    let mut writer = Writer {
        alloc,
        random: Random::from_seed(random.below(1 << 30) as u64),
        odds,
        written: Items::new(alloc),
    };
    writer.write_all(access)?;
    Some(Script {
        written: writer.written,
    })
}
