ghost use Rattle.std.specs.Prelude.{◌≡◌};
ghost use Rattle.dw_words.specs.Words.{kind_named, names_place as gives_place, names_search as gives_search, takes as is_taken};

/// Which command words begin.
#[derive(Clone, Copy, Debug, PartialEq, Eq)]
pub enum Kind {
    Exec,
    Ingest,
    Audit,
    Demo,
    Serve,
}

/// The command that a word names.
pub fn named_kind(word: &str) -> Option<Kind>
    ensures { result ≡ kind_named word.now }
{
    if word == "exec" {
        Some(Kind::Exec)
    } else if word == "ingest" {
        Some(Kind::Ingest)
    } else if word == "audit" {
        Some(Kind::Audit)
    } else if word == "demo" {
        Some(Kind::Demo)
    } else if word == "serve" {
        Some(Kind::Serve)
    } else {
        None
    }
}

fn names_place(name: &str) -> bool
    ensures { result ≡ gives_place name.now }
{
    name == "store" || name == "journal"
}

fn names_search(name: &str) -> bool
    ensures { result ≡ gives_search name.now }
{
    name == "workers" || name == "batches"
}

/// Whether a command takes an option of this name.
pub fn takes(kind: Kind, name: &str) -> bool
    ensures { result ≡ is_taken kind name.now }
{
    match kind {
        Kind::Exec => names_search(name) || names_place(name),
        Kind::Ingest => name == "form" || names_place(name),
        Kind::Audit => names_place(name),
        Kind::Demo => name == "seed" || name == "events" || name == "workers",
        Kind::Serve => {
            name == "port" || name == "connections" || names_search(name) || names_place(name)
        }
    }
}
