//! Why an event closed its run, didn't, or came late, as a JSON object.

ghost use Rattle.std.specs.Prelude.{◌≡◌, codes, option_map};
ghost use Rattle.std.specs.Option.{option_map_or};
ghost use Rattle.serde_json.specs.Data.{null};
ghost use Rattle.ar_object.specs.Object.{count_or_null};
ghost use Rattle.ar_object.specs.Written.{AddsMember, AddsValue};
ghost use Rattle.ar_reason.specs.ReasonData.{excess_data, why_data, why_members};

use ar_facts::phase_name;
use ar_limits::Phase;
use ar_object::JsonText;
use ar_progress::{Excess, Why};

/// Writes a number, or null where there is none.
fn put_number_if_there(json: &mut JsonText, name: &str, number: Option<u64>)
    ensures { AddsMember name.now (count_or_null number) json.old.written json.new.written }
{
    match number {
        Some(number) => json.put_count(name, number),
        None => json.put_null(name),
    }
}

fn write_why_members(
    json: &mut JsonText,
    count: Option<u64>,
    event: Option<u64>,
    kind: &str,
    limit: Option<&str>,
    phase: Option<&str>,
    value: Option<u64>,
)
    ensures { AddsValue (why_members count event kind.now (option_map (λ limit. limit.now) limit.entry)
        (option_map (λ phase. phase.now) phase.entry) value) json.old.written json.new.written }
{
    json.begin_object();
    put_number_if_there(json, "count", count);
    put_number_if_there(json, "event", event);
    json.put_text("kind", kind);
    json.put_text_if_there("limit", limit);
    json.put_text_if_there("phase", phase);
    put_number_if_there(json, "value", value);
    json.end_object()
}

/// Writes the count that exceeded its limit.
fn write_excess(json: &mut JsonText, phase: Phase, excess: Excess)
    ensures { AddsValue (excess_data phase excess) json.old.written json.new.written }
{
    let (limit, phase) = (excess.limit.name(), phase_name(phase));
    let (count, value) = (excess.count, u64::from(excess.value));
    write_why_members(
        json,
        Some(count),
        None,
        "limit",
        Some(limit),
        Some(phase),
        Some(value),
    )
}

fn write_why(json: &mut JsonText, why: Why)
    ensures { AddsValue (why_data why) json.old.written json.new.written }
{
    match why {
        Why::Stopped => write_why_members(json, None, None, "stop", None, None, None),
        Why::Exceeded(phase, excess) => write_excess(json, phase, excess),
        Why::AllComplete => write_why_members(json, None, None, "complete", None, None, None),
        Why::Dry(phase) => {
            write_why_members(json, None, None, "dry", None, Some(phase_name(phase)), None)
        }
        Why::AfterClose(number) => {
            write_why_members(json, None, Some(number), "runClosed", None, None, None)
        }
        Why::MetricWas(phase, since) => {
            let phase = Some(phase_name(phase));
            write_why_members(json, None, since, "metricComplete", None, phase, None)
        }
    }
}

/// Writes why an event closed its run, didn't, or came late, or null.
pub(crate) fn put_why(json: &mut JsonText, why: Option<Why>)
    ensures { AddsMember (codes "reason") (option_map_or why_data why null) json.old.written json.new.written }
{
    let Some(why) = why else {
        return json.put_null("reason");
    };
    json.put_key("reason");
    write_why(json, why)
}
