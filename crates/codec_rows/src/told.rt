// Answers and refusals as texts.
use smithy_serde::SerdeError;
use smithy_types::Text;
use std::alloc::Global;
use test_rows::Failed;

/// `Ok` and the text, or the refusal.
pub fn answered(alloc: Global, outcome: Result<Text, SerdeError>) -> Result<Text, Failed> {
    match outcome {
        Ok(text) => Ok(Text::from_string(format!(in alloc; "Ok {}", text.as_str())?)),
        Err(error) => refusal(alloc, &error),
    }
}

/// `Err`, the name of the variant, and its text.
pub fn refusal(alloc: Global, error: &SerdeError) -> Result<Text, Failed> {
    let name = error.variant_name();
    Ok(Text::from_string(format!(in alloc; "Err {name}: {error}")?))
}

/// `Some` and the text, or `None`.
pub fn optional(alloc: Global, text: Option<&str>) -> Result<Text, Failed> {
    match text {
        Some(text) => Ok(Text::from_string(format!(in alloc; "Some {text}")?)),
        None => Ok(Text::from_str(alloc, "None")?),
    }
}

/// Adds a text, behind `; ` where it is not the first one.
pub fn push_part(told: &mut Text, part: &str) -> Result<(), Failed> {
    if !told.as_str().is_empty() {
        told.push_str("; ")?;
    }
    told.push_str(part)?;
    Ok(())
}
