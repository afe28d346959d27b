// Maps from texts: the name that is sought, and then names with their values.
use base_values::TextVal;
use rows_shared::{Words, owned, said, say, text};
use serde_json::Value;
use std::alloc::Global;
use std::fmt::Debug;
use tile_json::{JsonFields, JsonVal, TextFields, TextMap};

fn say_map<V: Debug + Drop>(out: &mut String, map: &TextMap<V>, sought: &str) -> Option<()> {
    said(out, map.len())?;
    say(out, &map.get(sought))?;
    for index in 0..map.len() {
        say(out, &map.at(index))?;
    }
    Some(())
}

// The next name and its text.
fn text_field(alloc: Global, words: &mut Words) -> Option<(TextVal, TextVal)> {
    Some((owned(alloc, words)?, owned(alloc, words)?))
}

pub fn texts(alloc: Global, out: &mut String, words: &mut Words) -> Option<()> {
    let sought = text(alloc, words)?;
    let mut fields = TextFields::new(alloc);
    for _ in 0..words.next()?.parse::<u8>().ok()? {
        let (name, value) = text_field(alloc, words)?;
        fields.insert(name, value).ok()?;
    }
    say_map(out, &fields, sought.as_str())
}

// The next name and its value.
fn value_field(alloc: Global, words: &mut Words) -> Option<(TextVal, JsonVal)> {
    let name = owned(alloc, words)?;
    let value = Value::from_str(alloc, text(alloc, words)?.as_str()).ok()?;
    Some((name, JsonVal::new(value)))
}

pub fn values(alloc: Global, out: &mut String, words: &mut Words) -> Option<()> {
    let sought = text(alloc, words)?;
    let mut fields = JsonFields::new(alloc);
    for _ in 0..words.next()?.parse::<u8>().ok()? {
        let (name, value) = value_field(alloc, words)?;
        fields.insert(name, value).ok()?;
    }
    say_map(out, &fields, sought.as_str())
}
