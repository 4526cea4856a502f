// The parts of a JSON value, and why one states no batch. A reader stops at the first part that is missing, and want of memory is told apart.
ghost use Rattle.std.specs.Prelude.{◌≡◌, option_map, IfOk, IsErrOf, Some, None};
ghost use Rattle.serde_json.specs.View.{view, items_view};
ghost use Rattle.rowjson.specs.declared.tree.Stop.TheVariants.{Memory};
ghost use Rattle.rowjson.specs.Objects.{json_of};
ghost use Rattle.rowjson.specs.Objects.{has_keys, text_in, array_in, integer_in, number_in};
ghost use Rattle.rowjson.specs.Reading.{stop_of};

use colbase::Fault;
use serde_json::Value;
use std::alloc::{AllocError, AllocFailed, Global};

/// Why a value states no batch.
#[derive(Debug, Drop)]
pub enum Stop {
    Memory,
    NoBatch,
}

impl From<AllocError> for Stop {
    ghost from_gives = { λ _ e. e ≡ Memory };

    fn from(_: AllocError) -> Stop {
        Stop::Memory
    }
}

impl<T: Drop> From<AllocFailed<T>> for Stop {
    ghost from_gives = { λ _ e. e ≡ Memory };

    fn from(_: AllocFailed<T>) -> Stop {
        Stop::Memory
    }
}

impl From<Fault> for Stop {
    ghost from_gives = { λ fault e. e ≡ stop_of fault };

    fn from(fault: Fault) -> Stop {
        match fault {
            Fault::Memory => Stop::Memory,
            _ => Stop::NoBatch,
        }
    }
}

/// Why bytes are no JSON value.
#[derive(Debug, Drop)]
pub enum JsonStop {
    Memory,
    Form,
}

/// The JSON value of the bytes.
pub fn json_in(alloc: Global, bytes: &[u8]) -> Result<Value, JsonStop>
    ensures ok { IfOk result (λ v. json_of bytes.now ≡ Some (view v)) }
    ensures form { IsErrOf result JsonStop.Form → json_of bytes.now ≡ None }
{
    match simdutf8::compat::from_utf8(bytes) {
        Ok(text) => match Value::from_str(alloc, text) {
            Ok(value) => Ok(value),
            Err(e) => {
                if e.is_memory() {
                    return Err(JsonStop::Memory);
                }
                Err(JsonStop::Form)
            }
        },
        Err(_) => Err(JsonStop::Form),
    }
}

/// Whether the value is an object with so many keys.
#[tactic(auto, unfolding(crate::specs::Objects::has_keys))]
pub fn has_keys(value: &Value, count: usize) -> bool
    ensures { result ≡ has_keys count (view value.now) }
{
    match value.as_object() {
        Some(members) => members.len() == count,
        None => false,
    }
}

#[tactic(auto, unfolding(crate::specs::Objects::text_in))]
pub fn text_in<'v>(value: &'v Value, key: &str) -> Option<&'v str>
    ensures { option_map (λ s. s.now) result ≡ text_in key.now (view value.now) }
{
    value.get(key)?.as_str()
}

#[tactic(auto, unfolding(crate::specs::Objects::array_in))]
pub fn array_in<'v>(value: &'v Value, key: &str) -> Option<&'v Vec<Value>>
    ensures { option_map (λ v. items_view v.now.items) result ≡ array_in key.now (view value.now) }
{
    value.get(key)?.as_array()
}

#[tactic(auto, unfolding(crate::specs::Objects::number_in))]
pub fn number_in(value: &Value, key: &str) -> Option<u64>
    ensures { result ≡ number_in key.now (view value.now) }
{
    value.get(key)?.as_u64()
}

#[tactic(auto, unfolding(crate::specs::Objects::integer_in))]
pub fn integer_in(value: &Value, key: &str) -> Option<i64>
    ensures { result ≡ integer_in key.now (view value.now) }
{
    value.get(key)?.as_i64()
}
