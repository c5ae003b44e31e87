//! The cells of events in the sorted tables, the lists of uids in the cells of the indexes, what keys
//! say, and the tables of a world.
#![tactic(auto)]

mod doc_keys;
mod documents;
mod event_cells;
mod gathering;
mod index_laws;
mod list_bytes;
mod meta;
mod meta_laws;
mod meta_readers;
mod reader_laws;
mod readers;
mod table_laws;
mod uid_list;

pub use doc_keys::{doc_key_is_whole, uid_is_whole};
pub use documents::{cell_of, cells_of, document, document_span, key_of};
pub use dw_base::OutOfMemory;
pub use event_cells::{Entry, doc_text, entries, entries_added};
pub use gathering::{Said, events_of, gather, said_by};
pub use index_laws::{
    added_are_new, indexes_are_added, indexes_are_steps, wider_rules_keep_worlds,
};
pub use list_bytes::{BadList, decode_list, encode_list, lists_have_one_spelling};
pub use meta::{commit_cell, field_cell, grant_cell};
pub use meta_laws::{
    grants_are_cells, grants_have_one_spelling, grants_keep_worlds, meta_is_read,
    numbers_have_one_spelling, rules_are_cells, rules_have_one_spelling, rules_keep_worlds,
};
pub use meta_readers::{commit_number, field_rule, grant_names};
pub use reader_laws::{
    event_keys_are_read, field_keys_are_read, global_keys_are_read, rows_never_meet,
};
pub use readers::{
    EventFields, GlobalFields, IndexFields, event_fields, global_fields, index_fields, text,
};
pub use table_laws::{
    cells_are_given, codes_are_read, documents_are_read, events_are_gathered, events_are_read,
    events_are_steps, numbers_are_cells, tables_of_one_more, tables_tell_events,
};
pub use uid_list::{Form, UidList, Uids};
