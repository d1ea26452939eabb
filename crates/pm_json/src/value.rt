//! Values of `serde_json`.
use crate::any::JsonRef;
use pm_value::{Value, ValueError};
use serde_json::Value as Json;
use std::alloc::{AllocError, Global};

impl<'a> JsonRef for &'a Json {
    ghost use Rattle.serde_json.specs.View.{view};

    ghost seen = { λ v. view v.now };

    fn get(self, key: &str) -> Option<&'a Json> {
        Json::get(self, key)
    }

    fn is_null(self) -> bool {
        Json::is_null(self)
    }

    fn is_object(self) -> bool {
        Json::is_object(self)
    }

    fn as_bool(self) -> Option<bool> {
        Json::as_bool(self)
    }

    fn as_u64(self) -> Option<u64> {
        Json::as_u64(self)
    }

    fn as_str(&self) -> Option<&str> {
        Json::as_str(self)
    }

    fn items(self, alloc: Global) -> Result<Option<Vec<&'a Json>>, AllocError> {
        let Some(items) = self.as_array() else {
            return Ok(None);
        };
        let mut refs = Vec::with_capacity(alloc, items.len())?;
        for item in items {
            refs.push(item)?;
        }
        Ok(Some(refs))
    }

    fn members(&self, alloc: Global) -> Result<Option<Vec<(&str, &'a Json)>>, AllocError> {
        let Some(map) = self.as_object() else {
            return Ok(None);
        };
        let mut refs = Vec::with_capacity(alloc, map.len())?;
        for (key, value) in map.iter() {
            refs.push((key.as_str(), value))?;
        }
        Ok(Some(refs))
    }

    fn value(self, alloc: Global) -> Result<Value, ValueError> {
        Value::from_json(alloc, self)
    }
}
