// Models of rows.
use serde_json::Value;
use smithy_json::{Scratch, read_json};
use smithy_model::{Asked, ModelTable, schema_of_operation};
use std::alloc::Global;
use test_rows::{Failed, text_of};

/// The input of the operation under `operation` of the model under `model`, in its table, as a job has it.
pub fn input_schema(alloc: Global, given: &Value) -> Result<ModelTable, Failed> {
    let text = given.get("model").ok_or(Failed)?.to_string(alloc)?;
    let mut scratch = Scratch::new(alloc);
    let Ok(model) = read_json(alloc, text.as_bytes(), &mut scratch) else {
        return Err(Failed);
    };
    let name = text_of(given, "operation")?;
    schema_of_operation(alloc, &model, name, Asked::Input).map_err(|_| Failed)
}
