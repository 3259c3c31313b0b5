//! Looking up the members of an object. What an object lacks is read as nothing: as 0, as no text, as no items.

ghost use Rattle.std.specs.Prelude.{◌≡◌, ◌<◌, ◌^◌, ℕ, Bool, List, decimal};
ghost use Rattle.json.specs.Json.{Json, array, boolean, string};
ghost use Rattle.json.specs.Value.{items_of as list_items, value_view};
ghost use Rattle.table_receipts.specs.Objects.{digest_json, number_json};
ghost use Rattle.table_receipts.specs.ReadBack.{AreItems, Has};
ghost use Rattle.table_receipts.specs.Values.{IsDigest};

use json::Value;

/// The member of a name. What has none stands for it itself.
pub fn member_of<'v, 'a>(object: &'v Value<'a>, name: &str) -> &'v Value<'a>
    ensures { (j : Json) → Has object.now name.now j → value_view result.now ≡ j }
{
    object.get(name).unwrap_or(object)
}

// The digits of a number, or of a text.
fn digits_of<'a>(value: &Value<'a>) -> &'a str
    ensures { (n : ℕ) → value_view value.now ≡ number_json n → result.now ≡ decimal n }
{
    match value {
        Value::Number(text) | Value::String(text) => text,
        _ => "",
    }
}

pub fn number_of(object: &Value<'_>, name: &str) -> u128
    ensures { (n : ℕ) → n < 2 ^ 128 → Has object.now name.now (number_json n) → result ≡ n }
{
    match object.get(name) {
        Some(value) => digits_of(value).parse::<u128>().unwrap_or(0),
        None => 0,
    }
}

/// A number of 64 bits.
pub fn count_of(object: &Value<'_>, name: &str) -> u64
    ensures { (n : ℕ) → n < 2 ^ 64 → Has object.now name.now (number_json n) → result ≡ n }
{
    u64::try_from(number_of(object, name)).unwrap_or(0)
}

/// A number of 32 bits.
pub fn small_of(object: &Value<'_>, name: &str) -> u32
    ensures { (n : ℕ) → n < 2 ^ 32 → Has object.now name.now (number_json n) → result ≡ n }
{
    u32::try_from(number_of(object, name)).unwrap_or(0)
}

pub fn text_of<'a>(object: &Value<'a>, name: &str) -> &'a str
    ensures { (s : List ℕ) → Has object.now name.now (string s) → result.now ≡ s }
{
    match object.get(name) {
        Some(Value::String(text)) => text,
        _ => "",
    }
}

/// The text that a value is.
pub fn text_in<'a>(value: &Value<'a>) -> &'a str
    ensures { (s : List ℕ) → value_view value.now ≡ string s → result.now ≡ s }
{
    if let Value::String(text) = value {
        text
    } else {
        ""
    }
}

pub fn flag_of(object: &Value<'_>, name: &str) -> bool
    ensures { (b : Bool) → Has object.now name.now (boolean b) → result ≡ b }
{
    match object.get(name) {
        Some(Value::Bool(flag)) => *flag,
        _ => false,
    }
}

fn items_of<'v, 'a>(value: &'v Value<'a>) -> Option<&'v [Value<'a>]>
    ensures { (js : List Json) → value_view value.now ≡ array (list_items js) → AreItems result js }
{
    if let Value::Array(items) = value {
        Some(items.as_slice())
    } else {
        None
    }
}

pub fn list_of<'v, 'a>(object: &'v Value<'a>, name: &str) -> Option<&'v [Value<'a>]>
    ensures { (js : List Json) → Has object.now name.now (array (list_items js))
        → AreItems result js }
{
    items_of(object.get(name)?)
}

pub fn digest_of(object: &Value<'_>, name: &str) -> [u8; 32]
    ensures { (d : List ℕ) → IsDigest d → Has object.now name.now (digest_json d) → result ≡ d }
{
    let mut digest = [0; 32];
    match hex::decode_to_slice(text_of(object, name), &mut digest) {
        Ok(()) => digest,
        Err(_) => [0; 32],
    }
}
