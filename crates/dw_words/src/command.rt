ghost use Rattle.std.specs.Prelude.{◌≡◌, ◌≤◌, IsTrue};

use dw_base::{Listed, Text};
use std::marker::Model;

/// How records are written.
#[derive(Clone, Copy, Debug, PartialEq, Eq)]
pub enum Form {
    /// One record of JSON a line.
    Json,
    /// A text of CSV, of which the first row is the header.
    Csv,
}

/// Where the tables are.
#[derive(Debug, Drop, PartialEq, Eq)]
pub enum Place {
    /// In memory, and gone with the program.
    Memory,
    /// In a database, at the path that `--store` gives.
    Store(Text),
    /// In a journal, at the path that `--journal` gives.
    Journal(Text),
}

/// How many threads search side by side: 1 to 16.
#[derive(Clone, Copy, Debug, PartialEq, Eq)]
pub struct Workers {
    count: u32,
}

impl Model for Workers {
    ghost use Rattle.std.specs.Prelude.{ℕ, ◌≤◌};

    ghost Value = { ℕ };

    ghost view = { λ w. w.count };

    ghost invariant = { λ w. (1 ≤ w.count) × (w.count ≤ 16) };

    ghost inverse = { λ n. record { count = n } };
}

impl Workers {
    pub(crate) fn of(count: u32) -> Workers
        requires some { 1 ≤ count }
        requires at_most { count ≤ 16 }
        ensures { result ≡ count }
    {
        Workers { count }
    }

    pub fn count(self) -> u32
        ensures is { result ≡ self }
        ensures some { 1 ≤ result }
        ensures at_most { result ≤ 16 }
    {
        self.count
    }
}

/// How many documents each open shard may read in the first wave, in the second and so on: 1 to 16 numbers, each 1 to
/// 1,000,000.
#[derive(Debug, Drop, PartialEq, Eq)]
pub struct Batches {
    sizes: Listed<u32>,
}

impl Model for Batches {
    ghost use Rattle.std.specs.Prelude.{List, ℕ, IsTrue};
    ghost use Rattle.dw_words.specs.Sizes.{are_sizes};

    ghost Value = { List ℕ };

    ghost view = { λ b. b.sizes };

    ghost invariant = { λ b. IsTrue (are_sizes b.sizes) };

    ghost inverse = { λ l. record { sizes = l } };
}

impl Batches {
    ghost use Rattle.dw_words.specs.Sizes.{are_sizes, are_some};

    pub(crate) fn of(sizes: Listed<u32>) -> Batches
        requires { IsTrue (are_sizes sizes) }
        ensures { result ≡ sizes }
    {
        Batches { sizes }
    }

    pub fn as_slice(&self) -> &[u32]
        ensures is { result.now ≡ self.now }
        ensures sized { IsTrue (are_sizes self.now) }
        ensures some { IsTrue (are_some self.now) }
    {
        self.sizes.as_slice()
    }

    /// Takes no memory.
    pub fn into_sizes(self) -> Listed<u32>
        ensures is { result ≡ self }
        ensures sized { IsTrue (are_sizes self) }
        ensures some { IsTrue (are_some self) }
    {
        self.sizes
    }
}

/// What the program does. Words that begin with `migrate` are no command yet.
#[derive(Debug, Drop, PartialEq, Eq)]
pub enum Command {
    /// Answers request lines.
    Exec {
        workers: Workers,
        batches: Batches,
        place: Place,
    },
    /// Takes records in, in groups.
    Ingest {
        form: Form,
        place: Place,
    },
    /// Tells whether the tables are sound.
    Audit {
        place: Place,
    },
    /// Makes events, as many as are asked for and from 1 to 100,000, by a generator that begins with the seed, and
    /// queries them.
    Demo {
        seed: u32,
        events: u32,
        workers: Workers,
    },
    /// Serves so many connections, 1 to 1,000,000, at a port of 127.0.0.1, which is not 0.
    Serve {
        port: u16,
        connections: u32,
        workers: Workers,
        batches: Batches,
        place: Place,
    },
}

impl Place {
    ghost use Rattle.dw_words.specs.Words.{journal_at, store_at};

    /// The path of the database. Takes no memory.
    pub fn into_store(self) -> Option<Text>
        ensures { result ≡ store_at self }
    {
        match self {
            Place::Store(path) => Some(path),
            Place::Memory | Place::Journal(_) => None,
        }
    }

    /// The path of the journal. Takes no memory.
    pub fn into_journal(self) -> Option<Text>
        ensures { result ≡ journal_at self }
    {
        match self {
            Place::Journal(path) => Some(path),
            Place::Memory | Place::Store(_) => None,
        }
    }
}

impl Command {
    ghost use Rattle.dw_words.specs.Words.{place_in};

    /// Where the command's tables are. Takes no memory.
    pub fn into_place(self) -> Place
        ensures { result ≡ place_in self }
    {
        match self {
            Command::Exec { place, .. } => place,
            Command::Ingest { place, .. } => place,
            Command::Audit { place } => place,
            Command::Demo { .. } => Place::Memory,
            Command::Serve { place, .. } => place,
        }
    }
}
