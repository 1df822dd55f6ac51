//! JSON values, which contracts treat as plain data.
ghost use Rattle.std.specs.Prelude.{◌≡◌};
ghost use Rattle.serde_json.specs.View.{view};

use serde_json::Value;
use std::alloc::AllocError;
use std::marker::Model;

/// A JSON value. In contracts it is its data.
#[derive(Debug)]
pub struct Json {
    value: Value,
}

// Written out, so that dropping a value is a call of its own: the proof of a function that drops one doesn't go through
// its variants.
impl Drop for Json {
    fn drop(self) {
        let Json { value: _value } = self;
    }
}

impl Model for Json {
    ghost use Rattle.serde_json.specs.Data.{Data};
    ghost use Rattle.serde_json.specs.View.{view as json_view};
    ghost use Rattle.cacache_calls.specs.JsonCode.{data_code};

    ghost Value = { Data };

    ghost coded = { data_code };

    ghost view = { λ j. json_view j.value };
}

impl Json {
    /// Wraps this value. Allocates no memory.
    pub fn new(value: Value) -> Json
        ensures { result ≡ view value }
    {
        Json { value }
    }

    /// The value inside.
    pub fn as_value(&self) -> &Value
        ensures { view result.now ≡ self.now }
    {
        &self.value
    }

    /// Moves the value out. Allocates no memory.
    pub fn into_value(self) -> Value
        ensures { view result ≡ self }
    {
        let Json { value } = self;
        value
    }
}

impl Clone for Json {
    ghost is_clone = { λ j k. k ≡ j };

    fn clone(&self) -> Result<Json, AllocError> {
        Ok(Json {
            value: self.value.clone()?,
        })
    }
}
