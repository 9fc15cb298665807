use crate::machine_clock::passed_millis;
use std::alloc::{AllocError, Global};
use std::fs::{self, File, Files, OpenOptions};
use std::io::{self, Write};
use std::process::ExitStatus;
use std::time::{Clock, Instant};

/// How many bytes are shown of what was no line.
const SHOWN: usize = 200;

/// Where the logs of children go: into the files of a folder, each with the name of its connection; or nowhere.
#[derive(Drop)]
pub(crate) struct LogFolder<R: Files<File = File> + Clock + Copy> {
    rt: R,
    start: Option<Instant>,
    folder: Option<String>,
    working: String,
}

impl<R: Files<File = File> + Clock + Copy> LogFolder<R> {
    /// A folder, which is made where it isn't there. Ticks begin at `start`; `working` is the working directory.
    pub(crate) fn new(
        rt: R,
        start: Option<Instant>,
        folder: Option<String>,
        working: String,
    ) -> LogFolder<R> {
        if let Some(folder) = &folder {
            let _ = fs::create_dir_all(&rt, folder.as_str());
        }
        LogFolder {
            rt,
            start,
            folder,
            working,
        }
    }

    /// The log of a connection's child, in a file that is empty at first. Where the file can't be made, nothing is written.
    pub(crate) fn open(&self, alloc: Global, connection: &str) -> ChildLog<R> {
        let file = match &self.folder {
            Some(folder) => empty_file(&self.rt, alloc, folder.as_str(), connection).ok(),
            None => None,
        };
        ChildLog {
            rt: self.rt,
            alloc,
            start: self.start,
            working: String::from_str(alloc, self.working.as_str()).unwrap_or(String::new(alloc)),
            file,
            lines: 0,
            last: Vec::new(alloc),
        }
    }
}

/// A file that is empty, and takes what is written at its end, whoever writes.
fn empty_file<R: Files<File = File>>(
    rt: &R,
    alloc: Global,
    folder: &str,
    connection: &str,
) -> io::Result<File> {
    let path = format!(in alloc; "{folder}/{connection}.log")?;
    let file = OpenOptions::new()
        .append(true)
        .create(true)
        .open(rt, path.as_str())?;
    file.set_len(0)?;
    Ok(file)
}

/// What happens at the child of one connection, each with its tick. What can't be written is left out.
#[derive(Drop)]
pub(crate) struct ChildLog<R: Clock + Copy> {
    rt: R,
    alloc: Global,
    start: Option<Instant>,
    working: String,
    file: Option<File>,
    lines: u64,
    last: Vec<u8>,
}

impl<R: Clock + Copy> ChildLog<R> {
    /// The file as the standard error of a program; none where nothing is written.
    pub(crate) fn standard_error(&self) -> Option<File> {
        match &self.file {
            Some(file) => file.try_clone().ok(),
            None => None,
        }
    }

    pub(crate) fn started(&self, words: &[String], process: u32) {
        let working = self.working.as_str();
        self.say(format!(in self.alloc; "started as process {process}: {words:?} in {working}"));
    }

    pub(crate) fn not_started(&self, words: &[String], error: &io::Error) {
        let working = self.working.as_str();
        self.say(format!(in self.alloc; "can't be started: {error}: {words:?} in {working}"));
    }

    pub(crate) fn not_sent(&self, error: &io::Error) {
        self.say(format!(in self.alloc; "takes no line: {error}"));
    }

    /// `waiting` is what the child wrote after the last line that it gave.
    pub(crate) fn not_received(&self, error: &io::Error, waiting: &[u8]) {
        self.say(format!(in self.alloc; "gives no line: {error}"));
        if !waiting.is_empty() {
            let length = waiting.len();
            self.say(format!(in self.alloc; "wrote {length} bytes more, which begin:"));
            self.write(waiting.get(..SHOWN).unwrap_or(waiting));
            self.write(b"\n");
        }
    }

    /// Keeps a line that the child gave, until the next one.
    pub(crate) fn gave(&mut self, line: &[u8]) {
        if self.file.is_some() {
            self.lines = self.lines.saturating_add(1);
            self.last.clear();
            let _ = self.last.extend_from_slice(line);
        }
    }

    pub(crate) fn runs_on(&self) {
        self.say(String::from_str(
            self.alloc,
            "runs on after its input was closed, and is killed",
        ));
    }

    /// Writes how the child ended, and the last line that it gave.
    pub(crate) fn ended(&self, status: ExitStatus) {
        self.say(format!(in self.alloc; "has ended, {status}"));
        let lines = self.lines;
        let length = self.last.len();
        self.say(format!(in self.alloc; "gave {lines} lines, the last of {length} bytes:"));
        self.write(&self.last);
        self.write(b"\n");
    }

    fn say(&self, words: Result<String, AllocError>) {
        let tick = match self.start {
            Some(start) => passed_millis(&self.rt, start),
            None => 0,
        };
        if let Ok(words) = words {
            let line = format!(in self.alloc; "{tick} ms: {}\n", words.as_str());
            if let Ok(line) = line {
                self.write(line.as_bytes());
            }
        }
    }

    fn write(&self, bytes: &[u8]) {
        if let Some(file) = &self.file {
            let mut file = file;
            let _ = file.write_all(bytes);
        }
    }
}
