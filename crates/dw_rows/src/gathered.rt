ghost use Rattle.std.specs.Prelude.{◌≡◌, Some, option_map, IfOk};
ghost use Rattle.dw_rows.specs.Values.{guarded};
ghost use Rattle.dw_rows.specs.Entries.{day_of, is_short_text, cell_with, cells_at};
ghost use Rattle.dw_rows.specs.Sets.{with_all_few};
ghost use Rattle.dw_rows.specs.Gathering.{none_gathered, with_entry, limited, sized, judged};

use crate::OutOfMemory;
use crate::distinct::Distinct;
use crate::texts::{has_no_zero, text_in};
use dw_base::{MAX_CANONICAL, MAX_VALUE, Text};
use dw_event::{BadRecord, EventCell, Record, canonical};
use dw_key::DType;
use dw_norm::read_day;
use dw_vis::Vis;
use std::alloc::Global;

/// What is known of the values of a record while they are read: their cells, as far as they keep the rules,
/// whether a value stands anywhere, and whether each name, visibility and value has kept its rule.
#[derive(Debug, Drop)]
pub struct Gathered {
    pub cells: Distinct,
    pub some_value: bool,
    pub fields_kept: bool,
    pub visibilities_kept: bool,
    pub values_kept: bool,
}

/// Before the first value. Takes no memory.
pub fn nothing_gathered(alloc: Global) -> Gathered
    ensures { result ≡ none_gathered }
{
    Gathered {
        cells: Distinct::new(alloc),
        some_value: false,
        fields_kept: true,
        visibilities_kept: true,
        values_kept: true,
    }
}

/// The text of a value, where it keeps its rule, or where there is none.
fn short_text(raw: &[u8]) -> Option<&str>
    ensures { option_map (λ s. s.now) result ≡ guarded (is_short_text raw.now) (Some raw.now) }
{
    if raw.len() > MAX_VALUE || !has_no_zero(raw) {
        return None;
    }
    text_in(raw)
}

/// With the cell of these parts, where each is there.
fn with_cell(
    alloc: Global,
    cells: Distinct,
    field: &Option<Text>,
    vis: &Option<Vis>,
    text: &str,
) -> Result<Distinct, OutOfMemory>
    ensures { IfOk result (λ d. d ≡ with_all_few cells (cell_with field.now vis.now text.now)) }
{
    let Some(field) = field else {
        return Ok(cells);
    };
    let Some(vis) = vis else {
        return Ok(cells);
    };
    let cell = EventCell {
        field: field.copy()?,
        raw: Text::of(alloc, text)?,
        vis: vis.copy()?,
    };
    cells.with(cell)
}

/// With the cell of a value, where one stands there and it keeps its rules.
fn with_value(
    alloc: Global,
    cells: Distinct,
    field: &Option<Text>,
    vis: &Option<Vis>,
    raw: &[u8],
) -> Result<Distinct, OutOfMemory>
    ensures { IfOk result (λ d. d ≡ with_all_few cells (cells_at (record { field = field.now; vis = vis.now; raw = raw.now }))) }
{
    if raw.is_empty() {
        return Ok(cells);
    }
    match short_text(raw) {
        Some(text) => with_cell(alloc, cells, field, vis, text),
        None => Ok(cells),
    }
}

impl Gathered {
    /// With one value more, or none where there are no bytes, of a field and under a visibility, each None
    /// where it is refused.
    pub fn with(
        self,
        alloc: Global,
        field: &Option<Text>,
        vis: &Option<Vis>,
        raw: &[u8],
    ) -> Result<Gathered, OutOfMemory>
        ensures { IfOk result (λ g. g ≡ with_entry self (record { field = field.now; vis = vis.now; raw = raw.now })) }
    {
        Ok(Gathered {
            cells: with_value(alloc, self.cells, field, vis, raw)?,
            some_value: self.some_value || !raw.is_empty(),
            fields_kept: self.fields_kept && field.is_some(),
            visibilities_kept: self.visibilities_kept && vis.is_some(),
            values_kept: self.values_kept && short_text(raw).is_some(),
        })
    }
}

/// The day that bytes name, where they are a text.
fn day_in(alloc: Global, date: &[u8]) -> Result<Option<Text>, OutOfMemory>
    ensures { IfOk result (λ o. o ≡ day_of date.now) }
{
    match text_in(date) {
        Some(text) => read_day(alloc, text),
        None => Ok(None),
    }
}

fn limit(alloc: Global, rec: Record) -> Result<Result<Record, BadRecord>, OutOfMemory>
    ensures { IfOk result (λ r. r ≡ limited rec) }
{
    let bytes = canonical(alloc, &rec)?;
    if bytes.as_slice().len() > MAX_CANONICAL {
        return Ok(Err(BadRecord::TooLarge));
    }
    Ok(Ok(rec))
}

/// The record of a type, a day and what was gathered, or the first rule that is broken.
pub fn judge(
    alloc: Global,
    dtype: &[u8],
    date: &[u8],
    gathered: Gathered,
) -> Result<Result<Record, BadRecord>, OutOfMemory>
    ensures { IfOk result (λ r. r ≡ judged dtype.now date.now gathered) }
{
    if !gathered.some_value {
        return Ok(Err(BadRecord::Shape));
    }
    let Some(dtype) = DType::of(dtype) else {
        return Ok(Err(BadRecord::Dtype));
    };
    let Some(date) = day_in(alloc, date)? else {
        return Ok(Err(BadRecord::Date));
    };
    if !gathered.fields_kept {
        return Ok(Err(BadRecord::Field));
    }
    if !gathered.visibilities_kept {
        return Ok(Err(BadRecord::Visibility));
    }
    if !gathered.values_kept {
        return Ok(Err(BadRecord::Value));
    }
    match gathered.cells.into_cells() {
        Some(cells) => limit(alloc, Record { dtype, date, cells }),
        None => Ok(Err(BadRecord::TooLarge)),
    }
}
