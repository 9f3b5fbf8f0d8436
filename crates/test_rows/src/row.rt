// A row: a call, what is given to it, and what it has to answer.
use crate::failed::Failed;
use crate::given::text_of;
use serde_json::Value;
use std::alloc::Global;

/// A JSON object: `call` and `answer` are texts, and `given` is any value. Other keys are passed over; `case` says what a
/// row is about.
#[derive(Drop)]
pub struct Row {
    line: Value,
}

impl Row {
    /// The row of a line. It takes memory.
    pub fn read(alloc: Global, line: &str) -> Result<Row, Failed> {
        let line = Value::from_str(alloc, line)?;
        Ok(Row { line })
    }

    /// The name of the call.
    pub fn call(&self) -> Result<&str, Failed> {
        text_of(&self.line, "call")
    }

    /// The arguments of the call.
    pub fn given(&self) -> Result<&Value, Failed> {
        self.line.get("given").ok_or(Failed)
    }

    /// The text that the call has to give.
    pub fn answer(&self) -> Result<&str, Failed> {
        text_of(&self.line, "answer")
    }
}
