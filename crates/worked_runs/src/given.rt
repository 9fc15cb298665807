//! What is given in a case.

use crate::fault::CaseFault;
use crate::form::bytes_of;
use serde_json::Value;
use std::alloc::Global;

/// What cases name: the declarations and children of their file, and of the file that all share.
#[derive(Clone, Copy)]
pub(crate) struct Names<'a> {
    pub(crate) file: &'a Value,
    pub(crate) shared: &'a Value,
}

/// A case. What it leaves out is as usual in its file, or in the file that all share.
#[derive(Clone, Copy)]
pub(crate) struct Given<'a> {
    pub(crate) case: &'a Value,
    pub(crate) names: Names<'a>,
}

impl<'a> Names<'a> {
    /// The member of that name of a member of the file, or of the shared file.
    fn member(&self, kind: &str, name: &str) -> Option<&'a Value> {
        let own = self.file.get(kind).and_then(|named| named.get(name));
        match own {
            Some(value) => Some(value),
            None => self.shared.get(kind)?.get(name),
        }
    }

    /// The declaration or child that a value is, or whose name it is.
    pub(crate) fn named(
        &self,
        alloc: Global,
        kind: &str,
        value: &'a Value,
    ) -> Result<&'a Value, CaseFault> {
        let Some(name) = value.as_str() else {
            return Ok(value);
        };
        match self.member(kind, name) {
            Some(named) => Ok(named),
            None => Err(CaseFault::Unnamed(String::from_str(alloc, name)?)),
        }
    }
}

impl<'a> Given<'a> {
    /// A member of the case, or the usual one.
    pub(crate) fn get(&self, name: &str) -> Option<&'a Value> {
        match self.case.get(name) {
            Some(value) => Some(value),
            None => self.names.member("usual", name),
        }
    }

    pub(crate) fn need(&self, name: &'static str) -> Result<&'a Value, CaseFault> {
        match self.get(name) {
            Some(value) => Ok(value),
            None => Err(CaseFault::Form(name)),
        }
    }

    /// The bytes that a member means.
    pub(crate) fn bytes(&self, alloc: Global, name: &'static str) -> Result<Vec<u8>, CaseFault> {
        bytes_of(alloc, self.need(name)?, name)
    }

    /// What the case shows, in words.
    pub(crate) fn name(&self) -> &'a str {
        match self.case.get("name").and_then(Value::as_str) {
            Some(name) => name,
            None => "",
        }
    }
}
