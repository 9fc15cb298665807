ghost use Rattle.std.specs.Prelude.{◌≡◌, ◌≤◌, [], vec_len, vec_capacity};

use crate::child_log::LogFolder;
use crate::piped::{PipedChild, end_all};
use sp_model::Connection;
use sp_outside::Nursery;
use sp_value::{Memory, Text, TryCopy};
use sp_world::Untold;
use std::alloc::Global;
use std::fs::{File, Files};
use std::process::Processes;
use std::time::Clock;

/// Makes a child program for each connection, and lets those that come back end.
#[derive(Drop)]
pub(crate) struct Programs<R: Processes + Files<File = File> + Clock + Copy> {
    rt: R,
    logs: LogFolder<R>,
    made: usize,
    back: Vec<PipedChild<R>>,
    ghost counted: { vec_len back ≤ made },
    ghost room: { made ≤ vec_capacity back },
}

impl<R: Processes + Files<File = File> + Clock + Copy> Programs<R> {
    pub(crate) fn new(rt: R, alloc: Global, logs: LogFolder<R>) -> Programs<R>
        ensures none { result.made ≡ 0 }
        ensures back { result.back.items ≡ [] }
    {
        Programs {
            rt,
            logs,
            made: 0,
            back: Vec::new(alloc),
        }
    }

    /// Waits for the programs of all children that came back, half a second in all, and kills those that are left.
    pub(crate) fn end_all(self) {
        let Programs { rt, mut back, .. } = self;
        end_all(&rt, back.as_mut_slice());
    }
}

fn command_words(alloc: Global, command: &[Text]) -> Result<Vec<String>, Memory> {
    let mut words = Vec::new(alloc);
    for word in command {
        words.push(String::from_str(alloc, word.as_str())?)?;
    }
    Ok(words)
}

impl<R: Processes + Files<File = File> + Clock + Copy> Nursery<Untold> for Programs<R> {
    type Kid = PipedChild<R>;

    ghost made = { λ p. p.made };

    ghost back = { λ p. p.back.items };

    fn make(&mut self, alloc: Global, connection: &Connection) -> Result<PipedChild<R>, Memory> {
        let words = command_words(alloc, connection.command.as_slice())?;
        if self.made == usize::MAX {
            return Err(Memory);
        }
        self.back.reserve(self.made + 1 - self.back.len())?;
        let name = connection.name.copy(alloc)?;
        let log = self.logs.open(alloc, name.as_str());
        self.made += 1;
        Ok(PipedChild::new(self.rt, alloc, name, words, log))
    }

    fn take_back(&mut self, child: PipedChild<R>) {
        let mut child = child;
        child.let_end();
        let _ = self.back.push(child);
    }
}
