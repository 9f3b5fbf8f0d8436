// Answers told as texts.
use crate::failed::Failed;
use base64::engine::general_purpose::STANDARD;
use smithy_types::Text;
use std::alloc::Global;

/// Bytes as a text: as they are where they are UTF-8, and else `base64:` and their base64. It takes memory.
pub fn told_bytes(alloc: Global, bytes: &[u8]) -> Result<Text, Failed> {
    match str::from_utf8(bytes) {
        Ok(text) => Ok(Text::from_str(alloc, text)?),
        Err(_) => {
            let mut told = Text::from_str(alloc, "base64:")?;
            told.push_str(STANDARD.encode(alloc, bytes)?.as_str())?;
            Ok(told)
        }
    }
}
