ghost use Rattle.std.specs.Prelude.{◌≡◌, ◌++◌, ◌∷◌, [], IfOk, None, codes, map, option_map};
ghost use Rattle.json.specs.Token.{Token};
ghost use Rattle.json.specs.Tree.{members_tokens};
ghost use Rattle.serde_json.specs.Data.{array, boolean, number, object, unsigned};
ghost use Rattle.serde_json.specs.View.{items_of};
ghost use Rattle.serde_json.specs.Written.{members_outline};
ghost use Rattle.hex.specs.Hex.{encode_lower};
ghost use Rattle.dw_wire.specs.ReplyText.{bad_data, bad_data_at, done_data, error_data, fields_data, reply_data, reply_text, query_rule_text, rule_text, shown_data, why_member, why_members, word};
ghost use Rattle.dw_wire.specs.ReplyTokens.{Adds, closing, data_tokens, member_tokens, opening};

use crate::OutOfMemory;
use crate::reply::Reply;
use crate::request::Why;
use dw_event::{Bad, BadReason, BadRecord, Pair, Place, Report, Shown};
use dw_jexl::QueryRule;
use dw_key::{Bytes, DType, DocKey, Text};
use json::Writer;
use std::alloc::Global;
use std::str;

/// The text of `Reply::OutOfMemory`, which needs no memory.
pub const MEMORY_LINE: &[u8; 24] = b"{\"error\":\"outOfMemory\"}\n";

/// `MEMORY_LINE`, as the text of that reply.
pub fn memory_line() -> &'static [u8]
    ensures { result.now ≡ reply_text Reply.OutOfMemory }
{
    MEMORY_LINE.as_slice()
}

/// The text of a reply, with its line feed.
pub fn write_reply(alloc: Global, reply: &Reply) -> Result<Bytes, OutOfMemory>
    ensures { IfOk result (λ b. b ≡ reply_text reply.now) }
{
    let mut out = Writer::new(Vec::new(alloc));
    put_reply(alloc, &mut out, reply)?;
    let mut text = out.into_inner();
    text.push(b'\n')?;
    Ok(Bytes::from_vec(text))
}

fn put_reply(alloc: Global, out: &mut Writer, reply: &Reply) -> Result<(), OutOfMemory>
    ensures { Adds result out.old out.new (data_tokens (reply_data reply.now)) }
{
    match reply {
        Reply::Defined => put_done(out, "define"),
        Reply::Granted => put_done(out, "grant"),
        Reply::Ingested { report } => put_report(alloc, out, report),
        Reply::Created { number } => put_created(out, *number),
        Reply::Paged { shown, more } => put_page(alloc, out, shown.as_slice(), *more),
        Reply::Closed => put_done(out, "close"),
        Reply::Malformed { why } => put_malformed(out, *why),
        Reply::NotOwned => put_error(out, "notOwned"),
        Reply::NotEmpty => put_error(out, "notEmpty"),
        Reply::Unanchored => put_error(out, "unanchored"),
        Reply::Spent => put_error(out, "spent"),
        Reply::StoreFault => put_error(out, "storeFault"),
        Reply::OutOfMemory => put_error(out, "outOfMemory"),
    }
}

fn put_done(out: &mut Writer, name: &str) -> Result<(), OutOfMemory>
    ensures { Adds result out.old out.new (data_tokens (done_data name.now)) }
{
    out.begin_object()?;
    put_text(out, "ok", name)?;
    out.end_object()?;
    Ok(())
}

fn put_error(out: &mut Writer, name: &str) -> Result<(), OutOfMemory>
    ensures { Adds result out.old out.new (data_tokens (error_data name.now)) }
{
    out.begin_object()?;
    put_text(out, "error", name)?;
    out.end_object()?;
    Ok(())
}

// The name of a rule on queries.
fn query_rule_name(rule: QueryRule) -> &'static str
    ensures { result.now ≡ query_rule_text rule }
{
    match rule {
        QueryRule::TooLong => "tooLong",
        QueryRule::TooDeep => "tooDeep",
        QueryRule::Syntax => "syntax",
        QueryRule::TooMany => "tooMany",
        QueryRule::Pattern => "pattern",
    }
}

// The member that says why, and the end of its object.
fn put_reason(out: &mut Writer, name: &str) -> Result<(), OutOfMemory>
    ensures { Adds result out.old out.new (members_tokens (members_outline (why_member name.now))) }
{
    put_text(out, "why", name)?;
    out.end_object()?;
    Ok(())
}

fn put_query_rule(out: &mut Writer, rule: QueryRule) -> Result<(), OutOfMemory>
    ensures { Adds result out.old out.new (members_tokens (members_outline (why_members (Why.Query rule)))) }
{
    put_text(out, "rule", query_rule_name(rule))?;
    put_reason(out, "query")?;
    Ok(())
}

// The members that say why, and the end of their object.
fn put_why(out: &mut Writer, why: Why) -> Result<(), OutOfMemory>
    ensures { Adds result out.old out.new (members_tokens (members_outline (why_members why))) }
{
    match why {
        Why::Line => put_reason(out, "line"),
        Why::Json => put_reason(out, "json"),
        Why::Shape => put_reason(out, "shape"),
        Why::Caller => put_reason(out, "caller"),
        Why::Field => put_reason(out, "field"),
        Why::Kind => put_reason(out, "kind"),
        Why::Auths => put_reason(out, "auths"),
        Why::Records => put_reason(out, "records"),
        Why::Query { rule } => put_query_rule(out, rule),
        Why::Days => put_reason(out, "days"),
        Why::Types => put_reason(out, "types"),
        Why::Size => put_reason(out, "size"),
        Why::Number => put_reason(out, "number"),
        Why::Page => put_reason(out, "page"),
        Why::Literal => put_reason(out, "literal"),
    }
}

fn put_malformed(out: &mut Writer, why: Why) -> Result<(), OutOfMemory>
    ensures { Adds result out.old out.new (data_tokens (reply_data (Reply.Malformed why))) }
{
    out.begin_object()?;
    put_text(out, "error", "malformed")?;
    put_why(out, why)?;
    Ok(())
}

fn put_created(out: &mut Writer, number: u64) -> Result<(), OutOfMemory>
    ensures { Adds result out.old out.new (data_tokens (reply_data (Reply.Created number))) }
{
    out.begin_object()?;
    put_number(out, "number", number)?;
    put_text(out, "ok", "create")?;
    out.end_object()?;
    Ok(())
}

fn put_report(alloc: Global, out: &mut Writer, report: &Report) -> Result<(), OutOfMemory>
    ensures { Adds result out.old out.new (data_tokens (reply_data (Reply.Ingested report.now))) }
{
    out.begin_object()?;
    put_refused(alloc, out, report.bad.as_slice())?;
    put_number(out, "new", u64::from(report.new))?;
    put_text(out, "ok", "ingest")?;
    put_number(out, "repeat", u64::from(report.repeat))?;
    out.end_object()?;
    Ok(())
}

fn put_refused(alloc: Global, out: &mut Writer, refused: &[Bad]) -> Result<(), OutOfMemory>
    ensures { Adds result out.old out.new (member_tokens (codes "bad") (array (items_of (map bad_data refused.now)))) }
{
    out.key("bad")?;
    out.begin_array()?;
    for bad in refused {
        put_bad(alloc, out, bad)?;
    }
    out.end_array()?;
    Ok(())
}

fn put_bad(alloc: Global, out: &mut Writer, bad: &Bad) -> Result<(), OutOfMemory>
    ensures { Adds result out.old out.new (data_tokens (bad_data bad.now)) }
{
    match &bad.why {
        BadReason::Rule { rule } => put_rule(out, u64::from(bad.at), *rule),
        BadReason::Clash { place } => put_clash(alloc, out, u64::from(bad.at), place),
    }
}

// The name of a rule on records.
fn rule_name(rule: BadRecord) -> &'static str
    ensures { result.now ≡ rule_text rule }
{
    match rule {
        BadRecord::Shape => "shape",
        BadRecord::Dtype => "type",
        BadRecord::Date => "date",
        BadRecord::Field => "field",
        BadRecord::Visibility => "visibility",
        BadRecord::Value => "value",
        BadRecord::TooLarge => "tooLarge",
    }
}

fn put_rule(out: &mut Writer, at: u64, rule: BadRecord) -> Result<(), OutOfMemory>
    ensures { Adds result out.old out.new (data_tokens (bad_data_at at (BadReason.Rule rule))) }
{
    out.begin_object()?;
    put_number(out, "at", at)?;
    put_text(out, "why", rule_name(rule))?;
    out.end_object()?;
    Ok(())
}

fn put_clash(alloc: Global, out: &mut Writer, at: u64, place: &Place) -> Result<(), OutOfMemory>
    ensures { Adds result out.old out.new (data_tokens (bad_data_at at (BadReason.Clash place.now))) }
{
    out.begin_object()?;
    put_number(out, "at", at)?;
    put_text(out, "shard", place.shard.as_str())?;
    put_key(alloc, out, &place.key)?;
    put_text(out, "why", "clash")?;
    out.end_object()?;
    Ok(())
}

fn put_page(alloc: Global, out: &mut Writer, shown: &[Shown], more: bool) -> Result<(), OutOfMemory>
    ensures { Adds result out.old out.new (data_tokens (reply_data (Reply.Paged shown.now more))) }
{
    out.begin_object()?;
    put_events(alloc, out, shown)?;
    out.key("more")?;
    out.boolean(more)?;
    put_text(out, "ok", "page")?;
    out.end_object()?;
    Ok(())
}

fn put_events(alloc: Global, out: &mut Writer, shown: &[Shown]) -> Result<(), OutOfMemory>
    ensures { Adds result out.old out.new (member_tokens (codes "events") (array (items_of (map shown_data shown.now)))) }
{
    out.key("events")?;
    out.begin_array()?;
    for event in shown {
        put_shown(alloc, out, event)?;
    }
    out.end_array()?;
    Ok(())
}

fn put_shown(alloc: Global, out: &mut Writer, shown: &Shown) -> Result<(), OutOfMemory>
    ensures { Adds result out.old out.new (data_tokens (shown_data shown.now)) }
{
    out.begin_object()?;
    out.key("fields")?;
    out.begin_object()?;
    put_fields(out, shown.view.as_slice())?;
    put_text(out, "shard", shown.shard.as_str())?;
    put_key(alloc, out, &shown.key)?;
    out.end_object()?;
    Ok(())
}

// The members of `fields`, and its end.
fn put_fields(out: &mut Writer, pairs: &[Pair]) -> Result<(), OutOfMemory>
    ensures { Adds result out.old out.new (members_tokens (members_outline (fields_data pairs.now))) }
{
    let mut current = None;
    for pair in pairs {
        open_field(out, current, &pair.field)?;
        out.string(pair.raw.as_str())?;
        current = Some(&pair.field);
    }
    close_fields(out, current)?;
    Ok(())
}

fn open_field(out: &mut Writer, current: Option<&Text>, field: &Text) -> Result<(), OutOfMemory>
    ensures { Adds result out.old out.new (opening (option_map (λ f. f.now) current.entry) field.now) }
{
    let Some(current) = current else {
        return begin_field(out, field);
    };
    if current == field {
        return Ok(());
    }
    out.end_array()?;
    begin_field(out, field)?;
    Ok(())
}

fn begin_field(out: &mut Writer, field: &Text) -> Result<(), OutOfMemory>
    ensures { Adds result out.old out.new (opening None field.now) }
{
    out.key(field.as_str())?;
    out.begin_array()?;
    Ok(())
}

fn close_fields(out: &mut Writer, current: Option<&Text>) -> Result<(), OutOfMemory>
    ensures { Adds result out.old out.new (closing (option_map (λ f. f.now) current.entry)) }
{
    if current.is_some() {
        out.end_array()?;
    }
    out.end_object()?;
    Ok(())
}

// The members `type` and `uid`.
fn put_key(alloc: Global, out: &mut Writer, key: &DocKey) -> Result<(), OutOfMemory>
    ensures { Adds result out.old out.new (member_tokens (codes "type") (word key.now.dtype) ++ member_tokens (codes "uid") (word (encode_lower key.now.uid))) }
{
    put_text(out, "type", type_name(&key.dtype))?;
    let uid = hex::encode(alloc, key.uid.as_slice())?;
    put_text(out, "uid", uid.as_str())?;
    Ok(())
}

// The name of a type as a text. It is ASCII, so the second arm is never taken.
fn type_name(dtype: &DType) -> &str
    ensures { result.now ≡ dtype.now }
{
    match str::from_utf8(dtype.as_slice()) {
        Ok(name) => name,
        Err(_) => "",
    }
}

fn put_text(out: &mut Writer, name: &str, text: &str) -> Result<(), OutOfMemory>
    ensures { Adds result out.old out.new (member_tokens name.now (word text.now)) }
{
    out.key(name)?;
    out.string(text)?;
    Ok(())
}

fn put_number(out: &mut Writer, name: &str, value: u64) -> Result<(), OutOfMemory>
    ensures { Adds result out.old out.new (member_tokens name.now (number (unsigned value))) }
{
    out.key(name)?;
    out.u64(value)?;
    Ok(())
}
