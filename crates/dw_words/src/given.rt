//! What words give that are options.
ghost use Rattle.std.specs.Prelude.{◌≡◌, ◌≤◌, IfOk, IfSome, IsSome, codes, is_some};
ghost use Rattle.dw_words.specs.Options.{options, value_in};
ghost use Rattle.dw_words.specs.Values.{form, given_number};
ghost use Rattle.dw_words.specs.Words.{batches_given, place_given, workers_given};

use crate::command::{Batches, Form, Place, Workers};
use crate::options::value_of;
use crate::values;
use dw_base::{OutOfMemory, Text};
use std::alloc::Global;

/// The number that is given for a name, and has to be.
pub fn number(words: &[Text], name: &str, least: u32, most: u32) -> Option<u32>
    requires { IsSome (options words.now) }
    ensures is { result ≡ given_number least most (value_in name.now words.now) }
    ensures at_most { IfSome result (λ n. n ≤ most) }
{
    values::given_number(value_of(words, name), least, most)
}

/// How many threads search.
pub fn workers(words: &[Text]) -> Option<Workers>
    requires { IsSome (options words.now) }
    ensures { result ≡ workers_given words.now }
{
    values::read_workers(value_of(words, "workers"))
}

/// How records are written.
pub fn form(words: &[Text]) -> Option<Form>
    requires { IsSome (options words.now) }
    ensures { result ≡ form (value_in (codes "form") words.now) }
{
    values::read_form(value_of(words, "form"))
}

/// Whether how many documents a shard may read is told, or nothing is.
pub fn has_batches(words: &[Text]) -> bool
    requires { IsSome (options words.now) }
    ensures { result ≡ is_some (batches_given words.now) }
{
    values::are_batches(value_of(words, "batches"))
}

/// How many documents a shard may read wave by wave.
pub fn batches(alloc: Global, words: &[Text]) -> Result<Option<Batches>, OutOfMemory>
    requires { IsSome (options words.now) }
    ensures { IfOk result (λ b. b ≡ batches_given words.now) }
{
    values::read_batches(alloc, value_of(words, "batches"))
}

/// Whether at most one place is given.
pub fn has_place(words: &[Text]) -> bool
    requires { IsSome (options words.now) }
    ensures { result ≡ is_some (place_given words.now) }
{
    values::is_place(value_of(words, "store"), value_of(words, "journal"))
}

/// Where the tables are.
pub fn place(alloc: Global, words: &[Text]) -> Result<Option<Place>, OutOfMemory>
    requires { IsSome (options words.now) }
    ensures { IfOk result (λ p. p ≡ place_given words.now) }
{
    values::read_place(alloc, value_of(words, "store"), value_of(words, "journal"))
}
