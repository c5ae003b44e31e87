/// What a message by HTTP asks for, as its method, its path and the type of its content tell.
#[derive(Clone, Copy, Debug, PartialEq, Eq)]
pub enum Route {
    /// POST `/field`: defines a field.
    Field,
    /// POST `/grant`: replaces what a caller is granted.
    Grant,
    /// POST `/ingest` with an object of `records`.
    IngestJson,
    /// POST `/ingest` with a text of CSV.
    IngestCsv,
    /// POST `/query`: opens a query.
    Query,
    /// GET `/query/N/K`: page K of query N.
    Page,
    /// DELETE `/query/N`: closes query N.
    Close,
}
