// How high the values are that are read and told. An optional or an array with one content is one higher than that.
use crate::told::is_told;
use cad_json_import::import;
use cad_shapes::{DeclaredShapes, all_names_differ, are_closed};
use cad_syntax::{Basic, CadType, Kind, Text, TypeIds};
use serde_json::{Value as Json, json};
use std::alloc::Global;
use std::process::Abort;

/// What stands around a content.
#[derive(Clone, Copy)]
enum Level {
    Optional,
    Array,
}

/// The JSON of a value that is so high, with nil or an empty array inside.
fn high_json(rt: &impl Abort, alloc: Global, level: Level, height: u32) -> Json {
    let mut json = match level {
        Level::Optional => json!(in alloc; {"type": "Optional", "value": null}),
        Level::Array => json!(in alloc; {"type": "Array", "value": []}),
    }
    .expect(rt, "memory");
    for _ in 1..height {
        json = match level {
            Level::Optional => json!(in alloc; {"type": "Optional", "value": json}),
            Level::Array => json!(in alloc; {"type": "Array", "value": [json]}),
        }
        .expect(rt, "memory");
    }
    json
}

/// What stands before the content of a level, in the innermost level, and behind its content.
fn written(level: Level) -> (&'static str, &'static str, &'static str) {
    match level {
        Level::Optional => ("{\"type\":\"Optional\",\"value\":", "null", "}"),
        Level::Array => ("{\"type\":\"Array\",\"value\":[", "", "]}"),
    }
}

/// The text of the same.
fn high_text(rt: &impl Abort, alloc: Global, level: Level, height: u32) -> Text {
    let (front, content, end) = written(level);
    let mut text = Text::new(alloc);
    for _ in 0..height {
        text.push_str(front).expect(rt, "memory");
    }
    text.push_str(content).expect(rt, "memory");
    for _ in 0..height {
        text.push_str(end).expect(rt, "memory");
    }
    text
}

/// So many optionals or arrays around Int.
fn high_type(rt: &impl Abort, alloc: Global, level: Level, height: u32) -> CadType {
    let mut t = CadType::Basic(Basic::Number(Kind::Int));
    for _ in 0..height {
        let part = Box::new(alloc, t).expect(rt, "memory");
        t = match level {
            Level::Optional => CadType::Optional(part),
            Level::Array => CadType::Array(part),
        };
    }
    t
}

/// No declared types.
fn no_shapes(rt: &impl Abort, alloc: Global) -> Option<DeclaredShapes> {
    let all = Vec::new(alloc);
    if !are_closed(alloc, all.as_slice()).expect(rt, "memory") {
        return None;
    }
    if !all_names_differ(all.as_slice()) {
        return None;
    }
    let shapes = DeclaredShapes::new(alloc, all, TypeIds::new(alloc));
    Some(shapes.expect(rt, "memory"))
}

/// Whether the JSON of a value so high is read where a type is expected, and its value told as it stands.
fn is_read(rt: &impl Abort, alloc: Global, want: &CadType, level: Level, height: u32) -> bool {
    let json = high_json(rt, alloc, level, height);
    let text = high_text(rt, alloc, level, height);
    let Some(shapes) = no_shapes(rt, alloc) else {
        drop(json);
        return false;
    };
    let value = import(alloc, &shapes, want, &json).expect(rt, "memory");
    drop(json);
    let found = match &value {
        Some(one) => is_told(rt, alloc, shapes.types(), one, text.as_str()),
        None => false,
    };
    drop(value);
    found
}

/// Whether it is where its own type is expected.
fn is_read_as_typed(rt: &impl Abort, alloc: Global, level: Level, height: u32) -> bool {
    let want = high_type(rt, alloc, level, height);
    let found = is_read(rt, alloc, &want, level, height);
    drop(want);
    found
}

/// Whether it is where AnyStruct is expected.
fn is_read_as_any(rt: &impl Abort, alloc: Global, level: Level, height: u32) -> bool {
    is_read(rt, alloc, &CadType::Basic(Basic::AnyStruct), level, height)
}

#[test]
fn values_are_256_high_at_most(rt: HostRuntime) {
    let alloc = rt.alloc();
    for level in [Level::Optional, Level::Array] {
        assert!(rt; is_read_as_typed(&rt, alloc, level, 256));
        assert!(rt; !is_read_as_typed(&rt, alloc, level, 257));
        assert!(rt; is_read_as_any(&rt, alloc, level, 256));
        assert!(rt; !is_read_as_any(&rt, alloc, level, 257));
    }
}
